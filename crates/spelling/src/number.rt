// Numbers in digits.
ghost use Rattle.spelling.specs.Promise.{AnswersReadNumber};

use crate::bytes::{Class, class_of};

// the largest number that is read
pub const MOST_NUMBER: u32 = 65535;

// The number that the bytes are, if they are one. It stops at the digit that passes the limit, so that a run of any length overflows nothing.
pub fn read_number(bytes: &[u8]) -> Option<u32>
    ensures { AnswersReadNumber bytes.now result }
{
    if let [] | [b'0', _, ..] = bytes {
        return None;
    }
    let mut value = 0;
    for byte in bytes {
        if class_of(*byte) != Class::Digit {
            return None;
        }
        value = value * 10 + u32::from(*byte - b'0');
        if MOST_NUMBER < value {
            return None;
        }
    }
    Some(value)
}
