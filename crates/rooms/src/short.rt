// Rooms that are short.
ghost use Rattle.rooms.specs.Promise.{AnswersShortRoom};

use verdicts::Refusal;

// A room by its digit, with the length that is needed and the length that was given.
#[derive(Clone, Copy)]
pub struct Room {
    pub digit: usize,
    pub needed: usize,
    pub given: usize,
}

// The first of the rooms that is short. A loop, for no proof was found of what a `find` gave once it is matched.
pub fn short_room(rooms: &[Room]) -> Result<(), Refusal>
    ensures { AnswersShortRoom rooms.now result }
{
    for room in rooms {
        if room.given < room.needed {
            return Err(Refusal::ShortRoom(room.digit));
        }
    }
    Ok(())
}
