// A barrier: either unset, or expecting a count with what has registered so far.
// Its phase is an enum that is held in it and matched as a copy, as document 01 has it.
ghost use Rattle.std.specs.Prelude.{◌≡◌};
ghost use Rattle.barriers.specs.Barrier.{one_more_of};
ghost use Rattle.barriers.specs.Promise.{AnswersRegister, AnswersIsSet};

use crate::counting::more;

#[derive(Clone, Copy)]
pub enum Phase {
    Unset,
    Expecting(u32, u32),
}

// With it travels how many of its generations have completed.
#[derive(Clone, Copy)]
pub struct Barrier {
    pub phase: Phase,
    pub done: u32,
}

// What a registration meets.
#[derive(Clone, Copy)]
pub enum Met {
    Clash,
    Stays,
    Completes,
}

// That, and the barrier after it. They stand beside each other: with request 2026-07 a barrier gets a set, which no case of an enum can hold.
#[derive(Clone, Copy)]
pub struct Registration {
    pub met: Met,
    pub after: Barrier,
}

// One more registers where `got` have, and the barrier is unset again when they reach the count.
fn join(count: u32, got: u32, done: u32) -> Registration
    ensures { result ≡ one_more_of count got done }
{
    let so_far = more(got);
    if so_far == count {
        return Registration {
            met: Met::Completes,
            after: Barrier {
                phase: Phase::Unset,
                done: more(done),
            },
        };
    }
    Registration {
        met: Met::Stays,
        after: Barrier {
            phase: Phase::Expecting(count, so_far),
            done,
        },
    }
}

impl Barrier {
    // A command of this count registers.
    pub fn register(self, count: u32) -> Registration
        ensures { AnswersRegister self count result }
    {
        let phase = self.phase;
        let done = self.done;
        match phase {
            Phase::Unset => join(count, 0, done),
            Phase::Expecting(expected, got) => {
                if expected != count {
                    return Registration {
                        met: Met::Clash,
                        after: self,
                    };
                }
                join(count, got, done)
            }
        }
    }

    pub fn is_set(self) -> bool
        ensures { AnswersIsSet self result }
    {
        let phase = self.phase;
        matches!(phase, Phase::Expecting(_, _))
    }
}
