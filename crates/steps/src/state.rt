// The replay state: one value, which each step takes and returns.
ghost use Rattle.std.specs.Prelude.{◌≡◌, ◌<◌};
ghost use Rattle.tables.specs.Limits.{barriers, most_threads};
ghost use Rattle.steps.specs.State.{ran_so_far};
ghost use Rattle.steps.specs.Promise.{AnswersReplayStart};
ghost use Rattle.steps.specs.Needs.{applied, KnownChange};

use crate::change::Change;
use barriers::{Barrier, Phase};
use tables::Table;
use turns::settle;

// How many commands each thread has run; what it waits for, 0 or the barrier plus 1; the barriers.
#[derive(Clone, Copy)]
pub struct Replay {
    pub(crate) next: [u32; Table::THREADS],
    pub(crate) waits: [u32; Table::THREADS],
    pub(crate) barriers: [Barrier; Table::BARRIERS],
}

impl Replay {
    // All barriers unset, all threads unblocked, nothing run.
    pub fn start() -> Self
        ensures { AnswersReplayStart result }
    {
        let unset = Barrier {
            phase: Phase::Unset,
            done: 0,
        };
        Replay {
            next: [0u32; Table::THREADS],
            waits: [0u32; Table::THREADS],
            barriers: [unset; Table::BARRIERS],
        }
    }

    // What a step of thread t changes is stored: the thread has run one command more. In place, since copying the state is slow.
    #[tactic(auto, unfolding(tables::specs::Limits::barriers, tables::specs::Limits::most_threads))]
    pub(crate) fn store(&mut self, t: usize, made: Change)
        requires thread { t < most_threads }
        requires barrier { KnownChange made }
        requires counts { ran_so_far self.old t < 4294967295 }
        ensures { self.new ≡ applied self.old t made }
    {
        if let Some(entered) = made.entered {
            self.barriers[entered.barrier] = entered.after;
        }
        self.next[t] += 1;
        settle(&mut self.waits, t, made.wait, made.frees);
    }
}
