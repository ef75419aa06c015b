// One step: it runs the next command of one thread.
ghost use Rattle.std.specs.Prelude.{◌≡◌, ◌<◌};
ghost use Rattle.tables.specs.Limits.{most_threads};
ghost use Rattle.tables.specs.Rows.{first_row};
ghost use Rattle.steps.specs.Needs.{far, Found};
ghost use Rattle.steps.specs.Writing.{does_go_on};
ghost use Rattle.steps.specs.Promise.{AnswersStep};

use crate::change::{Change, run_row};
use crate::row::thread_row;
use crate::state::Replay;
use relation::at;
use tables::first_row;

// An allowed step met a mismatch at a command, or ran a command, which has this generation. Neither this nor `Did` is an Option or a Result:
// document 01 has the step's answer be an enum, taken apart by let .. else.
#[derive(Clone, Copy)]
pub enum How {
    Mismatch(usize),
    Ran(usize, u32),
}

#[derive(Clone, Copy)]
pub enum Did {
    NotAllowed,
    Took(How),
}

// The state after a step, and beside it what the step did.
#[derive(Clone, Copy)]
pub struct Stepped {
    pub after: Replay,
    pub did: Did,
}

// Does a step's answer let a schedule go on?
pub(crate) fn goes_on(did: Did) -> bool
    ensures { result ≡ does_go_on did }
{
    let Did::Took(how) = did else {
        return false;
    };
    matches!(how, How::Ran(_, _))
}

impl Replay {
    // What a step of thread t changes, whose rows begin at `first`.
    pub(crate) fn change(&self, commands: &[u32], lengths: &[u32], t: usize, first: usize) -> Change
        requires small { first < far }
        requires begins { t < most_threads → first ≡ first_row lengths.now t }
        ensures { Found commands.now lengths.now self.now t result }
    {
        let n = at(&self.next, t, 0);
        let wait = at(&self.waits, t, 0);
        let row = thread_row(commands, lengths, t, first, n, wait);
        run_row(row, &self.barriers)
    }

    // Thread t steps. A step that is not allowed, or that mismatches, keeps the state it met.
    #[tactic(auto, unfolding(tables::specs::Limits::barriers, tables::specs::Limits::most_threads))]
    pub fn step(mut self, commands: &[u32], lengths: &[u32], t: usize) -> Stepped
        ensures { AnswersStep self commands.now lengths.now t result }
    {
        let made = self.change(commands, lengths, t, first_row(lengths, t));
        let did = made.did;
        if !goes_on(did) {
            return Stepped { after: self, did };
        }
        self.store(t, made);
        Stepped { after: self, did }
    }
}
