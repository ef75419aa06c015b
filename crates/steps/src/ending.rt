// How a replay that went through ended: verdicts 6, 8 and 9.
ghost use Rattle.std.specs.Prelude.{◌≡◌, ◌+◌, ◌-◌, ◌<◌};
ghost use Rattle.tables.specs.Limits.{barriers};
ghost use Rattle.tables.specs.Lowest.{found};
ghost use Rattle.steps.specs.Ending.{barrier_set};
ghost use Rattle.steps.specs.Promise.{AnswersEnding};
ghost use Rattle.steps.specs.Needs.{far};

use crate::state::Replay;
use relation::at;
use tables::{Table, first_row};
use turns::{lowest_allowed, lowest_blocked};
use verdicts::Verdict;

// The last command that a thread has run, from its first row and how many it has run; where that would be before the first row, 0.
fn last_run(first: usize, ran: u32) -> usize
    requires { first < far }
    ensures { result ≡ first + ran - 1 }
{
    (first + ran as usize).saturating_sub(1)
}

impl Replay {
    // The lowest barrier that is set.
    fn lowest_set(self) -> Option<usize>
        ensures { result ≡ found (barrier_set self) barriers }
    {
        for b in 0..Table::BARRIERS {
            let barrier = self.barriers[b];
            if barrier.is_set() {
                return Some(b);
            }
        }
        None
    }

    // Of a state after some steps, all allowed: 6, 8, 9, or 0.
    pub fn ending(self, lengths: &[u32], steps: u32) -> Verdict
        ensures { AnswersEnding self lengths.now steps result }
    {
        if let Some(_) = lowest_allowed(lengths, &self.next, &self.waits) {
            return Verdict::Unfinished(steps as usize);
        }
        if let Some(t) = lowest_blocked(&self.waits, lengths.len()) {
            return Verdict::Blocked(last_run(first_row(lengths, t), at(&self.next, t, 0)));
        }
        if let Some(b) = self.lowest_set() {
            return Verdict::StillSet(b);
        }
        Verdict::Clean
    }
}
