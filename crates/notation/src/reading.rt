// A text read into the two tables: refusals 12 and 13, the tables written, and the rest of a refused text.
ghost use Rattle.std.specs.Prelude.{◌≡◌};
ghost use Rattle.notation.specs.Reading.{is_too_many};
ghost use Rattle.notation.specs.Promise.{Read, AnswersReadingTold, AnswersRestOf};

use crate::scan::{Sizes, scan, write};
use reader::rest_from;
use tables::Table;
use verdicts::Told;

#[derive(Clone, Copy)]
pub struct Text;

impl Text {
    // a text has at most so many bytes
    pub const BYTES: usize = 32768;
}

// Why a text is not read: refusal 12 with its place; refusal 13.
#[derive(Clone, Copy, PartialEq, Eq)]
pub enum Unread {
    Unfit(usize),
    Over,
}

pub type Reading = Result<Sizes, Unread>;

// A refusal's number and place; 0 where the text was accepted.
pub fn told(reading: Reading) -> Told
    ensures { AnswersReadingTold reading result }
{
    let (number, place) = match reading {
        Err(Unread::Unfit(place)) => (12, place),
        Err(Unread::Over) => (13, 0),
        Ok(_) => (0, 0),
    };
    Told {
        number,
        place,
        also: 0,
    }
}

// Are there more commands or threads than a table has, or than rooms of these lengths hold?
#[tactic(auto, unfolding(crate::specs::Reading::is_too_many, tables::specs::Limits::most_rows, tables::specs::Limits::most_threads))]
fn too_many(sizes: Sizes, room: usize, places: usize) -> bool
    ensures { result ≡ is_too_many sizes.commands sizes.threads room places }
{
    (Table::ROWS < sizes.commands)
        | (Table::THREADS < sizes.threads)
        | (room / 3 < sizes.commands)
        | (places < sizes.threads)
}

// Reads a text into the two lent tables.
pub fn read(text: &[u8], commands: &mut [u32], lengths: &mut [u32]) -> Reading
    ensures { Read text.now commands.old lengths.old commands.new lengths.new result }
{
    if Text::BYTES < text.len() {
        return Err(Unread::Over);
    }
    let sizes = scan(text).map_err(Unread::Unfit)?;
    if too_many(sizes, commands.len(), lengths.len()) {
        return Err(Unread::Over);
    }
    write(text, commands, lengths);
    Ok(sizes)
}

// The rest of a text that was read: from the offending token on, else its empty end.
pub fn rest(text: &[u8], reading: Reading) -> &[u8]
    ensures { AnswersRestOf text.entry reading result }
{
    match reading {
        Err(Unread::Unfit(place)) => rest_from(text, place),
        _ => rest_from(text, text.len()),
    }
}
