// What is searched.
ghost use Rattle.std.specs.Prelude.{◌≡◌, ◌≤◌, length};
ghost use Rattle.tables.specs.Limits.{most_rows};
ghost use Rattle.tables.specs.Rows.{rows};

use tables::Table;

// Commands, their generations, a table of what reaches what, and the heads of the rows.
#[derive(Clone, Copy)]
pub(crate) struct Searched<'a> {
    pub(crate) commands: &'a [u32],
    pub(crate) generations: &'a [u32],
    pub(crate) relation: &'a [u32],
    pub(crate) heads: &'a [usize; Table::ROWS],
    ghost few: { rows commands.now ≤ most_rows },
    ghost whole: { rows commands.now ≤ length generations.now },
}

impl Searched<'_> {
    // So many commands are searched.
    pub(crate) fn rows(&self) -> usize
        ensures { result ≡ rows self.now.commands.now }
    {
        self.commands.len() / 3
    }
}
