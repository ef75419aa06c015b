// Schedules that are evidence, each below a line that says what it shows.
ghost use Rattle.std.specs.Prelude.{◌≤◌, length};
ghost use Rattle.tables.specs.Rows.{rows};
ghost use Rattle.rules.specs.Rules.{Keeps};
ghost use Rattle.relation.specs.Table.{related};
ghost use Rattle.sheet.specs.Sheet.{pair, kept_pairs};
ghost use Rattle.rooms.specs.Rooms.{number_at};
ghost use Rattle.rooms.specs.Needs.{Roomy};
ghost use Rattle.replay.specs.Writer.{apart_schedule};
ghost use Rattle.steps.specs.Writing.{FilledBy};
ghost use Rattle.printing.specs.Putting.{Prints};
ghost use Rattle.exhibits.specs.Exhibits.{reuse_exhibit, order_exhibit, race_exhibits, exhibited};

use crate::shown::shown_by;
use printing::Printer;
use replay::write_apart;
use rooms::admits;
use sheet::{Sheet, kept};
use tables::{Table, Tables};
use wording::{put_first, put_shown, put_steps};

// The schedule in which d and what c does not reach go first, from the front of a room; answers its length.
fn fill_apart(tables: Tables, relation: &[u32], c: usize, d: usize, room: &mut [u32]) -> usize
    requires { Keeps tables.commands.now tables.lengths.now × (rows tables.commands.now ≤ length room.old) }
    ensures { FilledBy
        (apart_schedule tables.entry.commands.now tables.entry.lengths.now (related relation.now (rows tables.entry.commands.now)) c d)
        room.old room.new result }
{
    write_apart(tables, relation, c, d, room).unwrap()
}

// Two tables that pass, with the generation of each command and what it reaches.
#[derive(Clone, Copy)]
struct Exhibitor<'a> {
    tables: Tables<'a>,
    generations: &'a [u32],
    relation: &'a [u32],
    ghost roomy: { Roomy tables.commands.now tables.lengths.now generations.now relation.now },
}

impl Exhibitor<'_> {
    // Of a race, x first.
    fn put_way(&self, out: &mut Printer<'_>, x: usize, y: usize)
        ensures { Prints out.old out.new (order_exhibit self.now.tables.commands.now self.now.tables.lengths.now
            (related self.now.relation.now (rows self.now.tables.commands.now)) x y) }
    {
        let mut schedule = [0u32; Table::ROWS];
        let steps = fill_apart(self.tables, self.relation, y, x, &mut schedule);
        put_first(out, x, y);
        put_steps(out, &schedule[..steps]);
    }

    // Of a reuse fault (c, d), judged against the generations.
    // No one function with `put_way`: its line hangs on the schedule, and a closure that takes that is no shorter.
    fn put_reuse(&self, out: &mut Printer<'_>, c: usize, d: usize)
        ensures { Prints out.old out.new (reuse_exhibit self.now.tables.commands.now self.now.tables.lengths.now
            (related self.now.relation.now (rows self.now.tables.commands.now))
            (number_at self.now.generations.now) (pair c d)) }
    {
        let mut schedule = [0u32; Table::ROWS];
        let steps = fill_apart(self.tables, self.relation, c, d, &mut schedule);
        let shown = shown_by(self.tables, self.generations, &schedule[..steps]);
        put_shown(out, shown);
        put_steps(out, &schedule[..steps]);
    }

    // Of each pair that a sheet keeps, both ways.
    fn put_races(&self, out: &mut Printer<'_>, sheet: Sheet)
        ensures { Prints out.old out.new (race_exhibits self.now.tables.commands.now self.now.tables.lengths.now
            (related self.now.relation.now (rows self.now.tables.commands.now)) (kept_pairs sheet)) }
    {
        for pair in &sheet.pairs[..kept(sheet.total)] {
            let (x, y) = (pair.first, pair.second);
            self.put_way(out, x, y);
            self.put_way(out, y, x);
        }
    }
}

// Any tables, any rooms, any verdict's number and sheet: the exhibits.
pub fn put_exhibits(
    out: &mut Printer<'_>,
    tables: Tables,
    generations: &[u32],
    relation: &[u32],
    number: u32,
    sheet: Sheet,
)
    ensures { Prints out.old out.new
        (exhibited tables.entry.commands.now tables.entry.lengths.now generations.now relation.now number sheet) }
{
    if !admits(tables, relation.len(), generations.len()) {
        return;
    }
    let admitted = Exhibitor {
        tables,
        generations,
        relation,
    };
    // By the number: `put_exhibits` answers for any, also for one that no verdict has.
    match number {
        10 => {
            let pair = sheet.pairs[0];
            admitted.put_reuse(out, pair.first, pair.second);
        }
        11 => admitted.put_races(out, sheet),
        _ => {}
    }
}
