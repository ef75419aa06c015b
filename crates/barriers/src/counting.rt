// Counters.
ghost use Rattle.barriers.specs.Promise.{AnswersMore};

// One more; a counter at the largest number stays there.
pub fn more(n: u32) -> u32
    ensures { AnswersMore n result }
{
    n.saturating_add(1)
}
