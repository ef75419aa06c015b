// The edges of happens-before over offered generations.
#![tactic(auto, unfolding(tables::specs::Limits::most_rows))]

ghost use Rattle.std.specs.Prelude.{◌≡◌, ◌≤◌, ◌<◌, length};
ghost use Rattle.tables.specs.Limits.{most_rows};
ghost use Rattle.tables.specs.Rows.{rows};
ghost use Rattle.tables.specs.Heads.{own_head};
ghost use Rattle.rooms.specs.Rooms.{number_at};
ghost use Rattle.happens.specs.HappensBefore.{meets};
ghost use Rattle.happens.specs.Needs.{does_meet_row, follows};

use tables::{Table, is_first, same_name};

// Commands, the generations that are offered for them, and the heads of the rows.
// `Searched` of findings is these with a relation: neither crate knows the other, and one struct for both would be public, with a promise of its own.
#[derive(Clone, Copy)]
pub(crate) struct Presented<'a> {
    pub(crate) commands: &'a [u32],
    pub(crate) generations: &'a [u32],
    pub(crate) heads: &'a [usize; Table::ROWS],
    ghost few: { rows commands.now ≤ most_rows },
    ghost whole: { rows commands.now ≤ length generations.now },
}

impl Presented<'_> {
    // So many commands there are.
    pub(crate) fn rows(&self) -> usize
        ensures { result ≡ rows self.now.commands.now }
    {
        self.commands.len() / 3
    }

    // Does i register where and when j syncs: at the same barrier, in the same generation?
    fn meets(&self, i: usize, j: usize) -> bool
        requires { (i < rows self.now.commands.now) × (j < rows self.now.commands.now) }
        ensures { result ≡ meets self.now.commands.now (number_at self.now.generations.now) i j }
    {
        let registers = Table::ARRIVE <= self.commands[i * 3];
        let syncs = self.commands[j * 3] == Table::SYNC;
        let same_barrier = same_name(self.commands, i, j);
        let same_generation = self.generations[i] == self.generations[j];
        registers & syncs & same_barrier & same_generation
    }

    // The same of any two numbers: those that are no rows do not meet.
    pub(crate) fn meets_row(&self, i: usize, j: usize) -> bool
        ensures { result ≡ does_meet_row self.now.commands.now self.now.generations.now i j }
    {
        let m = self.rows();
        i < m && j < m && self.meets(i, j)
    }

    // Does a thread begin at row c?
    pub(crate) fn begins(&self, c: usize) -> bool
        requires { c < most_rows }
        ensures { result ≡ own_head self.now.heads.now c }
    {
        let heads = self.heads;
        is_first(heads, c)
    }

    // Is the row after c there, and of c's thread?
    pub(crate) fn follows(&self, c: usize) -> bool
        requires { c < rows self.now.commands.now }
        ensures { result ≡ follows self.now.heads.now (rows self.now.commands.now) c }
    {
        let next = c + 1;
        next < self.rows() && !self.begins(next)
    }
}
