// The closing of a table under chains, by Warshall's rounds over the doors of `relation`. Nothing here knows of barriers.
// Room and m are no struct: lent by `&` and by `&mut` they would be two, and each contract would have to say that the room is the same (relation/src/table.rt).
#![tactic(auto)]

ghost use Rattle.closing.specs.Promise.{Closes};

use crate::padding::trim;
use crate::rounds::all_rounds;
use relation::table_words;

mod padding; // the bits of a row from m on, cleared
mod rounds; // row k joined into every row that has bit k, for each k

// The least relation that has the table's pairs and in which chains count. A room that is short is refused and left as it was.
// Whether there is room is a bool: `Writes` (relation/specs/Table) tells it as a Bool (R82).
pub fn close(room: &mut [u32], m: u32) -> bool
    ensures { Closes room.old m room.new result }
{
    if room.len() < table_words(m) {
        return false;
    }
    trim(room, m);
    all_rounds(room, m);
    true
}
