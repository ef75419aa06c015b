// What the tests see of the tables.
#![tactic(auto, unfolding(tables::specs::Limits::most_rows, crate::specs::Needs::is_fault_at))]

ghost use Rattle.std.specs.Prelude.{◌≡◌, ◌<◌};
ghost use Rattle.tables.specs.Rows.{rows};
ghost use Rattle.faults.specs.Tests.{seen_at};
ghost use Rattle.findings.specs.Needs.{is_fault_at};

use crate::searched::Searched;
use faults::{Fault, Seen, is_fault};

impl Searched<'_> {
    // Command c.
    fn see(&self, c: usize) -> Seen
        requires { c < rows self.now.commands.now }
        ensures { result ≡ seen_at self.now.heads.now self.now.commands.now
            self.now.generations.now c }
    {
        Seen {
            row: c as u32,
            kind: self.commands[c * 3],
            name: self.commands[c * 3 + 1],
            generation: self.generations[c],
            head: self.heads[c],
        }
    }

    // Is the pair of outer number i and inner number j such a fault?
    pub(crate) fn fault_at(&self, fault: Fault, i: usize, j: usize) -> bool
        requires { (i < rows self.now.commands.now) × (j < rows self.now.commands.now) }
        ensures { result ≡ is_fault_at self.now fault i j }
    {
        is_fault(
            fault,
            self.relation,
            self.rows() as u32,
            self.see(i),
            self.see(j),
        )
    }
}
