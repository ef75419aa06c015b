// What threads wait for: 0, or a barrier plus 1, in a list of fixed size of the replay state, which callers of `settle` lend with any numbers.
ghost use Rattle.std.specs.Prelude.{◌≡◌};
ghost use Rattle.turns.specs.Turns.{held, let_go_of, released};
ghost use Rattle.turns.specs.Promise.{PutsNumber, Settles, AnswersLowestBlocked, AnswersBlockedSet, AnswersBlockedAfter};

use relation::at;
use sets::Set;
use tables::Table;

// A number is put at a place; past the end there is none. By the index: what `get_mut` writes, a proof does not see.
pub fn put(numbers: &mut [u32], i: usize, x: u32)
    ensures { PutsNumber numbers.old i x numbers.new }
{
    if i < numbers.len() {
        numbers[i] = x;
    }
}

// Is thread t blocked?
fn is_held(waits: &[u32], t: usize) -> bool
    ensures { result ≡ held waits.now t }
{
    (t < Table::THREADS) & (at(waits, t, 0) != 0)
}

// A thread that waits for w does so no more.
fn let_go(waits: u32, w: u32) -> u32
    ensures { result ≡ let_go_of w waits }
{
    if waits == w { 0 } else { waits }
}

// Every thread that waits for w is released.
fn release(waits: &mut [u32], w: u32)
    ensures { waits.new ≡ released w waits.old }
{
    for wait in waits.iter_mut() {
        *wait = let_go(*wait, w);
    }
}

// Thread t waits for `wait`, and then those are released who wait for `frees`. Where that is 0 there is nobody to look for.
pub fn settle(waits: &mut [u32; Table::THREADS], t: usize, wait: u32, frees: u32)
    ensures { Settles waits.old t wait frees waits.new }
{
    put(waits, t, wait);
    if frees != 0 {
        release(waits, frees);
    }
}

// The lowest of some threads that is blocked.
pub fn lowest_blocked(waits: &[u32], threads: usize) -> Option<usize>
    ensures { AnswersLowestBlocked waits.now threads result }
{
    for t in 0..threads {
        if is_held(waits, t) {
            return Some(t);
        }
    }
    None
}

// Which of the table's threads are blocked.
pub fn blocked_set(lengths: &[u32], waits: &[u32]) -> Set
    ensures { AnswersBlockedSet lengths.now waits.now result }
{
    let mut blocked = Set::none();
    for t in 0..lengths.len() {
        blocked = blocked.put(t, is_held(waits, t));
    }
    blocked
}

// The same after a step: only where threads were released is each one looked at.
pub fn blocked_after(
    blocked: Set,
    lengths: &[u32],
    waits: &[u32],
    t: usize,
    wait: u32,
    frees: u32,
) -> Set
    ensures { AnswersBlockedAfter blocked lengths.now waits.now t wait frees result }
{
    if frees == 0 {
        return blocked.put(t, wait != 0);
    }
    blocked_set(lengths, waits)
}
