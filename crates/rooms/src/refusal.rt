// Refusals 1 to 4, before a room is touched.
ghost use Rattle.rooms.specs.Promise.{AnswersRefuseSizes, AnswersRefuse, AnswersAdmits};

use crate::short::{Room, short_room};
use relation::table_words;
use rules::{bad_commands, check_tables};
use tables::Tables;
use verdicts::Refusal;

// 1 and 4, of the lengths alone: no table is gone through.
pub fn refuse_sizes(commands: &[u32], wide: usize, high: usize) -> Result<(), Refusal>
    ensures { AnswersRefuseSizes commands.now wide high result }
{
    if bad_commands(commands) {
        return Err(Refusal::BadCommands);
    }
    let m = commands.len() / 3;
    short_room(&[
        Room {
            digit: 0,
            needed: table_words(m as u32),
            given: wide,
        },
        Room {
            digit: 1,
            needed: m,
            given: high,
        },
    ])
}

// 1 to 4, of tables and the lengths of the two rooms.
pub fn refuse(tables: Tables, wide: usize, high: usize) -> Result<(), Refusal>
    ensures { AnswersRefuse tables.entry.commands.now tables.entry.lengths.now wide high result }
{
    check_tables(tables)?;
    refuse_sizes(tables.commands, wide, high)
}

// Are tables and rooms admitted, which is to say not refused? A caller that only goes on, or not, asks yes or no.
pub fn admits(tables: Tables, wide: usize, high: usize) -> bool
    ensures { AnswersAdmits tables.entry.commands.now tables.entry.lengths.now wide high result }
{
    refuse(tables, wide, high).is_ok()
}
