// What is found: refusals 1 and 4, or the verdict of the search, with the sheet.
ghost use Rattle.std.specs.Prelude.{◌≡◌, List, ◌≤◌, length};
ghost use Rattle.tables.specs.Limits.{most_rows};
ghost use Rattle.tables.specs.Rows.{rows};
ghost use Rattle.sheet.specs.declared.Pair.{Pair};
ghost use Rattle.sheet.specs.Sheet.{sheet_of};
ghost use Rattle.findings.specs.Findings.{Finds};
ghost use Rattle.findings.specs.Promise.{AnswersBare};
ghost use Rattle.findings.specs.Needs.{all_found, kind_told, Found, LookedBy, LookedOver};

use crate::search::search;
use crate::searched::Searched;
use faults::Fault;
use rooms::refuse_sizes;
use sheet::Sheet;
use tables::{Table, Tables, put_heads};
use verdicts::Verdict;

#[derive(Clone, Copy)]
pub struct Finding {
    pub verdict: Verdict,
    pub sheet: Sheet,
}

// A verdict without a fault's pairs.
pub fn bare(verdict: Verdict) -> Finding
    ensures { AnswersBare verdict result }
{
    Finding {
        verdict,
        sheet: Sheet::empty(),
    }
}

// The verdict of the pairs of one kind, by their sheet: the first of them, or 0.
#[tactic(auto, unfolding(sheet::specs::Sheet::most_kept))]
fn first_told(fault: Fault, sheet: Sheet) -> Verdict
    ensures { (ps : List Pair) → sheet ≡ sheet_of ps → kind_told fault ps result }
{
    if sheet.total == 0 {
        return Verdict::Clean;
    }
    let pair = sheet.pairs[0];
    match fault {
        Fault::Reuse => Verdict::Reuse(pair.first, pair.second),
        Fault::Race => Verdict::Race(pair.first, pair.second),
    }
}

// The faults of one kind.
fn find_kind(fault: Fault, searched: &Searched) -> Finding
    ensures { Found fault (all_found searched.now fault) result }
{
    let sheet = search(fault, searched);
    Finding {
        verdict: first_told(fault, sheet),
        sheet,
    }
}

// 10, 11 or 0, with the sheet. Races are looked for only when there is no reuse fault.
fn look(searched: &Searched) -> Finding
    ensures { LookedBy searched.now result }
{
    let reuses = find_kind(Fault::Reuse, searched);
    if reuses.sheet.total != 0 {
        return reuses;
    }
    find_kind(Fault::Race, searched)
}

// The same of the tables, by the heads of their rows.
fn look_over(tables: Tables, generations: &[u32], relation: &[u32]) -> Finding
    requires { (rows tables.commands.now ≤ most_rows) × (rows tables.commands.now ≤ length generations.now) }
    ensures { LookedOver tables.entry.commands.now tables.entry.lengths.now generations.now relation.now result }
{
    let mut heads = [0; Table::ROWS];
    put_heads(tables.lengths, &mut heads);
    look(&Searched {
        commands: tables.commands,
        generations,
        relation,
        heads: &heads,
    })
}

// Any numbers as tables, as generations, as a table of what reaches what. Only lengths are refused, and the rooms are only read.
pub fn find_faults(tables: Tables, generations: &[u32], relation: &[u32]) -> Finding
    ensures { Finds tables.entry.commands.now tables.entry.lengths.now generations.now relation.now result }
{
    if let Err(refusal) = refuse_sizes(tables.commands, relation.len(), generations.len()) {
        return bare(refusal.into());
    }
    look_over(tables, generations, relation)
}
