// A review with evidence.
ghost use Rattle.std.specs.Prelude.{◌≡◌};
ghost use Rattle.steps.specs.Writing.{FilledBy};
ghost use Rattle.evidence.specs.Needs.{evidence_in, Showable};
ghost use Rattle.review.specs.Agreement.{number, Reviewed};
ghost use Rattle.verdicts.specs.Verdicts.{result_told};
ghost use Rattle.evidence.specs.Doors.{evidence_refusal, HoldsEvidence, Admissible, Evidenced};

use crate::writing::{write_at, write_races};
use findings::{Finding, bare};
use review::review;
use rooms::{Room, refuse, short_room};
use sheet::{Sheet, kept};
use tables::Tables;
use verdicts::{Refusal, Verdict};

// What a review found, and how many entries of evidence were written.
#[derive(Clone, Copy)]
pub struct Evidence {
    pub finding: Finding,
    pub entries: usize,
}

impl Evidence {
    // numbers of the room for each command: two schedules for each pair that a sheet keeps
    pub const ROOM: usize = Sheet::KEPT * 2;
}

// The schedules that show a verdict, from the front of the room; answers how many entries.
fn show(tables: Tables, relation: &[u32], finding: Finding, room: &mut [u32]) -> usize
    requires { Showable tables.commands.now tables.lengths.now finding.sheet room.old }
    ensures { FilledBy
        (evidence_in tables.entry.commands.now tables.entry.lengths.now relation.now (number finding) finding.sheet)
        room.old room.new result }
{
    let sheet = finding.sheet;
    match finding.verdict {
        Verdict::Reuse(..) => {
            let pair = sheet.pairs[0];
            write_at(tables, relation, pair.first, pair.second, room, 0)
        }
        Verdict::Race(..) => {
            let n = kept(sheet.total);
            write_races(tables, relation, &sheet.pairs[..n], room)
        }
        _ => 0,
    }
}

// The review, and the schedules that show verdicts 10 and 11, of tables and rooms that pass.
fn review_shown(
    tables: Tables,
    schedule: &[u32],
    relation: &mut [u32],
    generations: &mut [u32],
    room: &mut [u32],
) -> Evidence
    requires { Admissible tables.commands.now tables.lengths.now relation.old generations.old room.old }
    ensures { Reviewed tables.entry.commands.now tables.entry.lengths.now schedule.now relation.old generations.old
        result.finding relation.new generations.new
        × HoldsEvidence tables.entry.commands.now tables.entry.lengths.now schedule.now room.old result room.new }
{
    let finding = review(tables, schedule, relation, generations);
    let entries = show(tables, relation, finding, room);
    Evidence { finding, entries }
}

// 1 to 4, of tables and the lengths of the three rooms.
fn refuse_showing(tables: Tables, wide: usize, high: usize, given: usize) -> Result<(), Refusal>
    ensures { result_told result ≡ evidence_refusal tables.entry.commands.now tables.entry.lengths.now wide high given }
{
    refuse(tables, wide, high)?;
    let needed = Evidence::ROOM * (tables.commands.len() / 3);
    short_room(&[Room {
        digit: 4,
        needed,
        given,
    }])
}

// Any tables, any schedule, any rooms. All rooms are tested before one is touched.
pub fn review_evidence(
    tables: Tables,
    schedule: &[u32],
    relation: &mut [u32],
    generations: &mut [u32],
    room: &mut [u32],
) -> Evidence
    ensures { Evidenced tables.entry.commands.now tables.entry.lengths.now schedule.now
        relation.old generations.old room.old
        result relation.new generations.new room.new }
{
    let refusal = refuse_showing(tables, relation.len(), generations.len(), room.len());
    if let Err(refusal) = refusal {
        return Evidence {
            finding: bare(refusal.into()),
            entries: 0,
        };
    }
    review_shown(tables, schedule, relation, generations, room)
}
