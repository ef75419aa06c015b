// A text from standard input.
ghost use Rattle.cuckoomoss.specs.Needs.{CameWithin};

use notation::Text;
use std::io::{self, Error, ErrorKind, Read, Stdin};

#[derive(Clone, Copy)]
pub(crate) struct Input;

impl Input {
    // one byte more than a text may have, so that a longer one is seen to be longer
    pub(crate) const BYTES: usize = Text::BYTES + 1;
}

// One read: no byte comes at the end of the input. A read that a signal interrupted is tried again, up to a number of times that no run uses up.
fn read_once(from: &mut Stdin, room: &mut [u8]) -> io::Result<usize>
    ensures { CameWithin result room.new }
{
    for _ in 0..u64::MAX {
        match from.read(room) {
            Err(error) if error.kind() == ErrorKind::Interrupted => {}
            came => return came,
        }
    }
    Err(Error::from(ErrorKind::Interrupted))
}

// Reads until the room is full, the input ends or a read fails.
pub(crate) fn fill(from: &mut Stdin, room: &mut [u8]) -> io::Result<usize>
    ensures { CameWithin result room.new }
{
    let mut done = 0;
    while done < room.len() {
        let n = read_once(from, &mut room[done..])?;
        if n == 0 {
            break;
        }
        done += n;
    }
    Ok(done)
}
