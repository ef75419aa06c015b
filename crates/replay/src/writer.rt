// The schedule writers: at each step the chosen thread steps.
ghost use Rattle.std.specs.Prelude.{◌≡◌, ◌≤◌, min, length};
ghost use Rattle.tables.specs.Limits.{most_rows};
ghost use Rattle.relation.specs.Table.{related};
ghost use Rattle.replay.specs.Needs.{first_schedule, PutsApart};
ghost use Rattle.replay.specs.Doors.{WritesBy, WritesSchedule, WritesApart};

use relation::related;
use rooms::{Room, short_room};
use rules::check_tables;
use steps::{Replay, write_on};
use tables::{Table, Tables};
use verdicts::Refusal;

// The schedule in which the commands of a list go first, into the room, and its length: refusals 1 to 4 come first. No schedule has more than M steps.
fn write_first(tables: Tables, early: &[bool], room: &mut [u32]) -> Result<usize, Refusal>
    ensures { WritesBy
        (first_schedule early.now tables.entry.commands.now tables.entry.lengths.now)
        tables.entry.commands.now tables.entry.lengths.now room.old room.new result }
{
    check_tables(tables)?;
    let m = tables.commands.len() / 3;
    short_room(&[Room {
        digit: 2,
        needed: m,
        given: room.len(),
    }])?;
    let length = write_on(
        Replay::start(),
        tables.commands,
        tables.lengths,
        early,
        &mut room[..m],
    );
    Ok(length)
}

// No command goes first: always the lowest allowed thread steps.
pub fn write_schedule(tables: Tables, room: &mut [u32]) -> Result<usize, Refusal>
    ensures { WritesSchedule tables.entry.commands.now tables.entry.lengths.now room.old room.new result }
{
    write_first(tables, &[], room)
}

// The rows of tables that pass are few, and so are their commands. Tables with more are refused, and what is no command reaches nothing.
fn few(m: usize) -> u32
    ensures { result ≡ min m most_rows }
{
    m.min(Table::ROWS) as u32
}

// d goes first, and each command that c does not reach in a table of m rows.
fn put_apart(relation: &[u32], m: u32, c: u32, d: usize, early: &mut [bool])
    requires { length early.old ≤ most_rows }
    ensures { PutsApart (related relation.now m) c d early.old early.new }
{
    for (x, goes) in early.iter_mut().enumerate() {
        *goes = (x == d) | !related(relation, m, c, x as u32);
    }
}

// d and what c does not reach in a table of what reaches what go first, as far as they can.
pub fn write_apart(
    tables: Tables,
    relation: &[u32],
    c: usize,
    d: usize,
    room: &mut [u32],
) -> Result<usize, Refusal>
    ensures { WritesApart tables.entry.commands.now tables.entry.lengths.now relation.now c d room.old room.new result }
{
    let mut early = [false; Table::ROWS];
    let m = few(tables.commands.len() / 3);
    put_apart(relation, m, few(c), d, &mut early);
    write_first(tables, &early, room)
}
