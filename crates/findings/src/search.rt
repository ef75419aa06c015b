// The one ordered search that serves both tests: each outer number walks its list.
#![tactic(auto, unfolding(tables::specs::Limits::most_rows))]

ghost use Rattle.std.specs.Prelude.{◌≡◌, ◌*◌, ◌<◌, ◌≤◌};
ghost use Rattle.tables.specs.Limits.{most_rows};
ghost use Rattle.tables.specs.Rows.{rows};
ghost use Rattle.sheet.specs.Sheet.{sheet_of};
ghost use Rattle.sheet.specs.Needs.{add_all};
ghost use Rattle.findings.specs.Needs.{row_found, all_found};

use crate::lists::{Trails, list};
use crate::searched::Searched;
use faults::{Fault, pair_of};
use sheet::{Sheet, add_to};
use tables::Table;

// The faults of outer number i, added to a sheet.
// Past its room only the total goes up: `add_to` copies the sheet, and that costs more than to find the pair (docs/DECISIONS.md, 'When is a pair added').
fn add_row(listing: &Trails, i: usize, sheet: &mut Sheet)
    requires { (sheet.old.total ≤ most_rows * most_rows) × (i < rows listing.now.searched.commands.now) }
    ensures { sheet.new ≡ add_all sheet.old (row_found listing.now.searched listing.now.fault i) }
{
    let m = listing.searched.rows();
    let mut j = listing.first_candidate(i);
    while j < m {
        if listing.searched.fault_at(listing.fault, i, j) {
            if sheet.total < Sheet::KEPT {
                add_to(sheet, pair_of(listing.fault, i, j));
            } else {
                sheet.total += 1;
            }
        }
        j = listing.nexts[j];
    }
}

// All faults of a kind, in their order: kept while the sheet has room, and counted all along.
pub(crate) fn search(fault: Fault, searched: &Searched) -> Sheet
    ensures { result ≡ sheet_of (all_found searched.now fault) }
{
    let mut fronts = [Table::ROWS; Table::ROWS];
    let mut nexts = [Table::ROWS; Table::ROWS];
    list(fault, searched, &mut fronts, &mut nexts);
    let listing = Trails {
        fault,
        searched: *searched,
        fronts: &fronts,
        nexts: &nexts,
    };
    let mut found = Sheet::empty();
    for i in 0..searched.rows() {
        add_row(&listing, i, &mut found);
    }
    found
}
