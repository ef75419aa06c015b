// Warshall's rounds: row k joined into every row that has bit k, for each k.
ghost use Rattle.std.specs.Prelude.{ℕ, ◌≤◌, ◌<◌, ◌≡◌, true, List, length};
ghost use Rattle.relation.specs.Chains.{rounds};
ghost use Rattle.relation.specs.Bits.{bit_at, RowIs};
ghost use Rattle.relation.specs.Table.{width, words, inside};
ghost use Rattle.closing.specs.Needs.{RowsAre, joined_if};

use relation::{join, related};

// Row k is joined into row i where row i has bit k.
fn join_if(room: &mut [u32], m: u32, i: u32, k: u32)
    requires { inside (length room.old) m i k ≡ true }
    ensures { RowIs room.old room.new (width m) i (joined_if room.old (width m) k i) }
{
    if related(room, m, i, k) {
        join(room, m, i, k);
    }
}

// Row k is joined into the rows from `first` to before `end` that have bit k: a round over an old room that had come to `first` comes to `end`.
fn join_rows(room: &mut [u32], m: u32, k: u32, first: u32, end: u32)
    requires { (words m ≤ length room.old) × (k < m) × (first ≤ end) × (end ≤ m) }
    ensures { (old : List ℕ) → RowsAre old room.old (width m) first (joined_if old (width m) k)
        → RowsAre old room.new (width m) end (joined_if old (width m) k) }
{
    for i in first..end {
        join_if(room, m, i, k);
    }
}

// One round: row k is joined into every row that has bit k. Those before it and those after it go apart: to itself it brings nothing, and the compiler,
// which then sees that row k is only read, joins several words at once.
fn round(room: &mut [u32], m: u32, k: u32)
    requires { (words m ≤ length room.old) × (k < m) }
    ensures { RowsAre room.old room.new (width m) m (joined_if room.old (width m) k) }
{
    join_rows(room, m, k, 0, k);
    join_rows(room, m, k, k + 1, m);
}

// All rounds.
pub(crate) fn all_rounds(room: &mut [u32], m: u32)
    requires { words m ≤ length room.old }
    ensures { RowsAre room.old room.new (width m) m (rounds (bit_at room.old (width m)) m) }
{
    for k in 0..m {
        round(room, m, k);
    }
}
