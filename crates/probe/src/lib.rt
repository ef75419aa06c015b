// Doors for outside tests and benchmarks, as C calls them: the review, the schedule writer, the reader, the closing of a table and the run of a warp.
// A slice is a pointer and a length to C. `answer` is a room of at least 36 numbers; a shorter one is answered 14, before all else, and nothing is touched.
// The answers stay numbers, 14 among them, for C reads numbers.
#![tactic(auto)]

ghost use Rattle.probe.specs.Promise.{ProbesReview, ProbesSchedule, ProbesRead, ProbesClose, ProbesWarp};

use crate::answer::{Answer, capped, put_sheet, put_told};
use crate::ran::ran_of;
use closing::close;
use evidence::review_evidence;
use notation::{Sizes, read, rest, told};
use replay::write_schedule;
use runs::run_kernel;
use tables::Tables;
use verdicts::Verdict;

mod answer; // numbers into the answer room
mod ran; // what a warp's run is told by

// The verdict's number. `answer` gets its two places, the total, how many numbers of evidence were written, and both numbers of each of the sheet's sixteen pairs.
#[unsafe(no_mangle)]
pub extern "C" fn probe_review(
    commands: &[u32],
    lengths: &[u32],
    schedule: &[u32],
    relation: &mut [u32],
    generations: &mut [u32],
    evidence: &mut [u32],
    answer: &mut [u32],
) -> u32
    ensures { ProbesReview commands.now lengths.now schedule.now
        relation.old generations.old evidence.old answer.old
        relation.new generations.new evidence.new answer.new result }
{
    if answer.len() < Answer::NUMBERS {
        return 14;
    }
    let shown = review_evidence(
        Tables { commands, lengths },
        schedule,
        relation,
        generations,
        evidence,
    );
    let found = shown.finding;
    let verdict = found.verdict;
    let sheet = found.sheet;
    let told = verdict.told();
    put_told(answer, told, sheet.total, shown.entries);
    put_sheet(answer, sheet);
    told.number
}

// 1 to 4, or 0. `answer` gets the two places, the schedule's length, and 0.
#[unsafe(no_mangle)]
pub extern "C" fn probe_schedule(
    commands: &[u32],
    lengths: &[u32],
    room: &mut [u32],
    answer: &mut [u32],
) -> u32
    ensures { ProbesSchedule commands.now lengths.now room.old answer.old
        room.new answer.new result }
{
    if answer.len() < Answer::NUMBERS {
        return 14;
    }
    match write_schedule(Tables { commands, lengths }, room) {
        Ok(length) => {
            put_told(answer, Verdict::Clean.told(), length, 0);
            0
        }
        Err(refusal) => {
            let told = Verdict::from(refusal).told();
            put_told(answer, told, 0, 0);
            told.number
        }
    }
}

// 12, 13 or 0. `answer` gets the two places, the numbers of commands and threads, and where the rest of the text begins.
#[unsafe(no_mangle)]
pub extern "C" fn probe_read(
    text: &[u8],
    commands: &mut [u32],
    lengths: &mut [u32],
    answer: &mut [u32],
) -> u32
    ensures { ProbesRead text.now commands.old lengths.old answer.old
        commands.new lengths.new answer.new result }
{
    if answer.len() < Answer::NUMBERS {
        return 14;
    }
    let reading = read(text, commands, lengths);
    let told = told(reading);
    let found = reading.unwrap_or(Sizes {
        commands: 0,
        threads: 0,
    });
    put_told(answer, told, found.commands, found.threads);
    answer[4] = capped(text.len() - rest(text, reading).len());
    told.number
}

// 1 where the table of so many rows was closed, 0 where the room is short for it.
#[unsafe(no_mangle)]
pub extern "C" fn probe_close(relation: &mut [u32], rows: u32) -> u32
    ensures { ProbesClose relation.old rows relation.new result }
{
    u32::from(close(relation, rows))
}

// 17, 18 or 0. `answer` gets the place and 0, how the run ended and 0, and the number of steps taken, its low half and its high half.
#[unsafe(no_mangle)]
pub extern "C" fn probe_warp(
    statements: &[u32],
    expressions: &[u32],
    lanes: u32,
    cells: &mut [u32],
    steps: u64,
    answer: &mut [u32],
) -> u32
    ensures { ProbesWarp statements.now expressions.now lanes steps cells.old answer.old
        cells.new answer.new result }
{
    if answer.len() < Answer::NUMBERS {
        return 14;
    }
    let ran = ran_of(run_kernel(statements, expressions, lanes, cells, steps));
    put_told(answer, ran.told, ran.ending, 0);
    answer[4] = (ran.taken % Answer::HALF) as u32;
    answer[5] = (ran.taken / Answer::HALF) as u32;
    ran.told.number
}
