// The check of the tables: refusals 1 to 3.
#![tactic(auto)]

ghost use Rattle.std.specs.Prelude.{◌≡◌};
ghost use Rattle.rules.specs.Rules.{does_row_keep};
ghost use Rattle.rules.specs.Needs.{first_broken};
ghost use Rattle.rules.specs.Promise.{AnswersBadCommands, AnswersCheckTables};

use tables::{Table, Tables, first_row};
use verdicts::Refusal;

// Does a row keep the rules, in a table of so many threads?
fn keeps_rules(threads: usize, kind: u32, name: u32, count: u32) -> bool
    ensures { result ≡ does_row_keep threads kind name count }
{
    let named = name as usize;
    let counted = count as usize;
    if kind < Table::ARRIVE {
        return (named < Table::ADDRESSES) & (counted == 0);
    }
    (kind <= Table::SYNC)
        & (named < Table::BARRIERS)
        & (1 <= counted)
        & (counted <= Table::COUNT)
        & (counted <= threads)
}

// The first row that breaks them. A loop and no `position`: edits leave rows out by their place, and of a right `position` with such a test no proof was found.
fn first_bad(commands: &[u32], threads: usize) -> Option<usize>
    ensures { result ≡ first_broken commands.now threads }
{
    let (rows, _) = commands.as_chunks::<3>();
    for c in 0..rows.len() {
        let [kind, name, count] = rows[c];
        if !keeps_rules(threads, kind, name, count) {
            return Some(c);
        }
    }
    None
}

// Are the command numbers no multiple of 3, or the rows too many? No row is looked at.
pub fn bad_commands(commands: &[u32]) -> bool
    ensures { AnswersBadCommands commands.now result }
{
    let numbers = commands.len();
    if numbers % 3 != 0 {
        return true;
    }
    Table::ROWS < numbers / 3
}

// Refusals 1, 2 and 3, in the order tested.
pub fn check_tables(tables: Tables) -> Result<(), Refusal>
    ensures { AnswersCheckTables tables.entry.commands.now tables.entry.lengths.now result }
{
    let commands = tables.commands;
    if bad_commands(commands) {
        return Err(Refusal::BadCommands);
    }
    let m = commands.len() / 3;
    let threads = tables.lengths.len();
    if threads == 0 {
        return Err(Refusal::BadLengths);
    }
    if Table::THREADS < threads {
        return Err(Refusal::BadLengths);
    }
    if first_row(tables.lengths, threads) != m {
        return Err(Refusal::BadLengths);
    }
    if let Some(row) = first_bad(commands, threads) {
        return Err(Refusal::BadRow(row));
    }
    Ok(())
}
