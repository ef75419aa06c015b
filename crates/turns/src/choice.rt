// Which thread may step.
ghost use Rattle.std.specs.Prelude.{◌≡◌};
ghost use Rattle.turns.specs.Turns.{has_any_left};
ghost use Rattle.turns.specs.Promise.{AnswersAllows, AnswersLowestAllowed};

use relation::at;
use tables::Table;

// Does thread t exist, and has it a command left after n of them?
pub(crate) fn has_left(lengths: &[u32], t: usize, n: u32) -> bool
    ensures { result ≡ has_any_left lengths.now t n }
{
    t < Table::THREADS && n < at(lengths, t, 0)
}

// A step is allowed if its thread exists, has a command left and isn't blocked: thread t, which has run n commands and waits for `wait`.
pub fn allows(lengths: &[u32], t: usize, n: u32, wait: u32) -> bool
    ensures { AnswersAllows lengths.now t n wait result }
{
    has_left(lengths, t, n) & (wait == 0)
}

// The lowest thread that may step.
pub fn lowest_allowed(lengths: &[u32], next: &[u32], waits: &[u32]) -> Option<usize>
    ensures { AnswersLowestAllowed lengths.now next.now waits.now result }
{
    for t in 0..lengths.len() {
        if allows(lengths, t, at(next, t, 0), at(waits, t, 0)) {
            return Some(t);
        }
    }
    None
}
