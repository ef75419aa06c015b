// Rows joined along listed pairs, which callers of `put_reach` lend as two numbers each, sweep after sweep, until nothing changes.
// In which order can only cost time, so no promise speaks of it.
ghost use Rattle.std.specs.Prelude.{◌≤◌, length};
ghost use Rattle.relation.specs.Table.{words};
ghost use Rattle.sweeps.specs.Pairs.{pair_count, PairBetween, PairIn};
ghost use Rattle.sweeps.specs.Promise.{PutsReach};
ghost use Rattle.sweeps.specs.Needs.{Pass, AllTaken};

use relation::{diagonal, join};

// For each pair (i, k) from `first` to before `end`, the last of them first, row k is joined into row i. Has anything changed?
fn sweep(room: &mut [u32], m: u32, pairs: &[u32], first: usize, end: usize) -> bool
    requires { (words m ≤ length room.old) × (first ≤ end) × (end ≤ pair_count pairs.now) }
    ensures { Pass (PairIn pairs.now m) m (PairBetween pairs.now first end) room.old room.new result }
{
    let mut changed = false;
    for e in (first..end).rev() {
        changed |= join(room, m, pairs[e * 2], pairs[e * 2 + 1]);
    }
    changed
}

// The same for all pairs, part after part. A part ends before the pair that `parts` tells; whatever stands there, no pair is left out.
fn sweep_parts(room: &mut [u32], m: u32, pairs: &[u32], parts: &[u32]) -> bool
    requires { words m ≤ length room.old }
    ensures { Pass (PairIn pairs.now m) m (PairBetween pairs.now 0 (pair_count pairs.now))
        room.old room.new result }
{
    let n = pairs.len() / 2;
    let mut changed = false;
    let mut first = 0;
    for part in parts {
        let end = (*part as usize).clamp(first, n);
        changed |= sweep(room, m, pairs, first, end);
        first = end;
    }
    changed | sweep(room, m, pairs, first, n)
}

// Sweeps until nothing changes: by turns over the pairs from the last on, and part after part.
// The first is quick where chains lead to later parts, the second where they lead to earlier ones.
fn settle(room: &mut [u32], m: u32, pairs: &[u32], parts: &[u32])
    requires { words m ≤ length room.old }
    ensures { AllTaken (PairIn pairs.now m) m room.old room.new }
{
    let n = pairs.len() / 2;
    loop {
        if !sweep(room, m, pairs, 0, n) {
            return;
        }
        if !sweep_parts(room, m, pairs, parts) {
            return;
        }
    }
}

// The least relation on the numbers below m that has the listed pairs, in which each number reaches itself, and chains count.
// A room that is short is refused and left as it was. Whether there is room is a bool: `Writes` (relation/specs/Table) tells it as a Bool (R82).
pub fn put_reach(room: &mut [u32], m: u32, pairs: &[u32], parts: &[u32]) -> bool
    ensures { PutsReach room.old m pairs.now room.new result }
{
    if !diagonal(room, m) {
        return false;
    }
    settle(room, m, pairs, parts);
    true
}
