// Lists of the commands that a fault can pair, so that a search walks no others.
#![tactic(auto, unfolding(tables::specs::Limits::most_rows, tables::specs::Limits::barriers))]

ghost use Rattle.std.specs.Prelude.{◌≡◌, ℕ, ◌+◌, ◌<◌, ◌≤◌, get_or};
ghost use Rattle.tables.specs.Limits.{most_rows};
ghost use Rattle.tables.specs.Rows.{rows, name};
ghost use Rattle.rooms.specs.Rooms.{number_at};
ghost use Rattle.findings.specs.Needs.{listed, list_of_barrier, key, Lists, Candidate};

use crate::searched::Searched;
use faults::Fault;
use tables::Table;

// Can such a fault pair command c?
fn listed(fault: Fault, searched: &Searched, c: usize) -> bool
    requires { c < rows searched.now.commands.now }
    ensures { result ≡ listed searched.now fault c }
{
    let kind = searched.commands[c * 3];
    match fault {
        Fault::Reuse => Table::ARRIVE <= kind,
        Fault::Race => kind < Table::ARRIVE,
    }
}

// The list of c's barrier and of a generation so many after c's own.
fn barrier_list(searched: &Searched, c: usize, after: usize) -> usize
    requires { (c < rows searched.now.commands.now) × (after < most_rows) }
    ensures { (result ≡ list_of_barrier (name searched.now.commands.now c)
        (number_at searched.now.generations.now c + after)) × (result < most_rows) }
{
    let first = searched.commands[c * 3 + 1] as usize * (Table::ROWS / Table::BARRIERS);
    (first + searched.generations[c] as usize + after) % Table::ROWS
}

// The list of command c.
fn key(fault: Fault, searched: &Searched, c: usize) -> usize
    requires { c < rows searched.now.commands.now }
    ensures { (result ≡ key searched.now fault c) × (result < most_rows) }
{
    match fault {
        Fault::Reuse => barrier_list(searched, c, 0),
        Fault::Race => searched.commands[c * 3 + 1] as usize % Table::ROWS,
    }
}

// Each command is put in front of its list, from the last to the first.
pub(crate) fn list(
    fault: Fault,
    searched: &Searched,
    fronts: &mut [usize; Table::ROWS],
    nexts: &mut [usize; Table::ROWS],
)
    requires { (k : ℕ) → k < most_rows → rows searched.now.commands.now ≤ get_or fronts.old k 0 }
    ensures { Lists searched.now fault fronts.new nexts.new 0 }
{
    for c in (0..searched.rows()).rev() {
        if listed(fault, searched, c) {
            let k = key(fault, searched, c);
            nexts[c] = fronts[k];
            fronts[k] = c;
        }
    }
}

// The lists: the front of each, and the next after each command. Where there is none stands a number past all rows, so that a walk ends by one test.
#[derive(Clone, Copy)]
pub(crate) struct Trails<'a> {
    pub(crate) fault: Fault,
    pub(crate) searched: Searched<'a>,
    pub(crate) fronts: &'a [usize; Table::ROWS],
    pub(crate) nexts: &'a [usize; Table::ROWS],
    ghost lists: { Lists searched fault fronts.now nexts.now 0 },
}

impl Trails<'_> {
    // The first candidate of outer number i.
    // For reuse it is the front of the list of the generation before; for races, whose pairs go upward, it is the next after i.
    pub(crate) fn first_candidate(&self, i: usize) -> usize
        requires { i < rows self.now.searched.commands.now }
        ensures { Candidate self.now.searched self.now.fault i 0 result }
    {
        if !listed(self.fault, &self.searched, i) {
            return Table::ROWS;
        }
        match self.fault {
            Fault::Reuse => self.fronts[barrier_list(&self.searched, i, Table::ROWS - 1)],
            Fault::Race => self.nexts[i],
        }
    }
}
