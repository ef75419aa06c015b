// The review: the refusals, the replay, the rooms and the verdict.
ghost use Rattle.std.specs.Prelude.{◌≡◌, ◌≤◌, length, take};
ghost use Rattle.tables.specs.Limits.{most_rows};
ghost use Rattle.tables.specs.Over.{over};
ghost use Rattle.review.specs.Agreement.{Reviewed};

use findings::{Finding, bare, find_faults};
use happens::put_happens_before;
use replay::judge;
use rooms::refuse;
use tables::{Table, Tables};
use verdicts::Verdict;

// The first m generations into their room. By value: when they are put, the array's place on the stack is free again, before happens-before takes its own.
fn put_generations(room: &mut [u32], found: [u32; Table::ROWS], m: usize)
    requires { (m ≤ length room.old) × (m ≤ most_rows) }
    ensures { room.new ≡ over (take m found) room.old }
{
    room[..m].copy_from_slice(&found[..m]);
}

// Any tables, any schedule, any rooms. The verdict up to 9 is found before a room is touched; only for 0, 10 and 11 are they filled.
pub fn review(
    tables: Tables,
    schedule: &[u32],
    relation: &mut [u32],
    generations: &mut [u32],
) -> Finding
    ensures { Reviewed
        tables.entry.commands.now tables.entry.lengths.now schedule.now relation.old generations.old
        result relation.new generations.new }
{
    if let Err(refusal) = refuse(tables, relation.len(), generations.len()) {
        return bare(refusal.into());
    }
    let judged = judge(tables, schedule);
    let Verdict::Clean = judged.verdict else {
        return bare(judged.verdict);
    };
    put_generations(generations, judged.generations, tables.commands.len() / 3);
    put_happens_before(tables, generations, relation).unwrap();
    find_faults(tables, generations, relation)
}
