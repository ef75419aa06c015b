// The pairs that happens-before is made of, in a list: for each command its thread's next, and its leader both ways.
#![tactic(auto, unfolding(tables::specs::Limits::most_rows))]

ghost use Rattle.std.specs.Prelude.{◌≡◌, ◌+◌, ◌*◌, ◌≤◌, ◌<◌};
ghost use Rattle.tables.specs.Limits.{most_rows};
ghost use Rattle.tables.specs.Rows.{rows};
ghost use Rattle.happens.specs.Needs.{Led, Draws, DrawsBelow, Adds, OnePair};

use crate::edges::Presented;
use crate::leaders::{SEATS, leader};
use tables::Table;

// Two numbers for a pair, and three pairs for a command.
pub(crate) const NUMBERS: usize = 6 * Table::ROWS;

// The pairs, as `put_reach` takes them, and how many there are; and the parts, each told by the pair that it ends before.
// There is no heap, so both rooms have their length beside them.
#[derive(Drop)]
pub(crate) struct PairList {
    pub(crate) numbers: [u32; NUMBERS],
    pub(crate) count: usize,
    pub(crate) parts: [u32; Table::THREADS],
    pub(crate) ended: usize,
    ghost fits: { count ≤ 3 * most_rows },
}

impl PairList {
    // The pair (i, k) is put after the others.
    fn push(&mut self, i: usize, k: usize)
        requires { (self.old.count < 3 * most_rows) × (i < most_rows) × (k < most_rows) }
        ensures { Adds 1 (OnePair i k) self.old.numbers self.new.numbers
            self.old.count self.new.count }
    {
        let at = self.count * 2;
        self.numbers[at] = i as u32;
        self.numbers[at + 1] = k as u32;
        self.count += 1;
    }

    // Where a thread begins, a part of the list ends. A hint for the order of sweeps, of which nothing is promised.
    fn end_part(&mut self)
        ensures { (self.new.numbers ≡ self.old.numbers) × (self.new.count ≡ self.old.count) }
    {
        if self.ended < Table::THREADS {
            self.parts[self.ended] = self.count as u32;
            self.ended += 1;
        }
    }
}

// The pairs of command c and its leader.
fn put_leader(offered: &Presented, leaders: &[u16; SEATS], c: usize, listed: &mut PairList)
    requires { (listed.old.count + 2 ≤ 3 * most_rows) × (c < rows offered.now.commands.now) }
    ensures { Adds 2 (Led offered.now.commands.now offered.now.generations.now leaders.now c)
        listed.old.numbers listed.new.numbers listed.old.count listed.new.count }
{
    if let Some(l) = leader(offered, leaders, c) {
        if offered.meets_row(l, c) {
            listed.push(l, c);
        }
        listed.push(c, l);
    }
}

// The pairs of command c. A sweep goes from the last pair on, so that the next command, which stands last, is joined first.
fn put_command(offered: &Presented, leaders: &[u16; SEATS], c: usize, listed: &mut PairList)
    requires { (listed.old.count + 3 ≤ 3 * most_rows) × (c < rows offered.now.commands.now) }
    ensures { Adds 3 (Draws offered.now.commands.now offered.now.generations.now
        offered.now.heads.now leaders.now c)
        listed.old.numbers listed.new.numbers listed.old.count listed.new.count }
{
    put_leader(offered, leaders, c, listed);
    if offered.follows(c) {
        listed.push(c, c + 1);
    }
}

// The pairs of all commands, into a list that has none.
pub(crate) fn put_pairs(offered: &Presented, leaders: &[u16; SEATS], listed: &mut PairList)
    requires { listed.old.count ≡ 0 }
    ensures { Adds (3 * rows offered.now.commands.now)
        (DrawsBelow offered.now.commands.now offered.now.generations.now
        offered.now.heads.now leaders.now (rows offered.now.commands.now))
        listed.old.numbers listed.new.numbers 0 listed.new.count }
{
    for c in 0..offered.rows() {
        if offered.begins(c) {
            listed.end_part();
        }
        put_command(offered, leaders, c, listed);
    }
}
