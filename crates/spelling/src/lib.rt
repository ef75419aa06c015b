// What the readers of written notations share: classes and runs of bytes, words, numbers; in specs/ and proofs/ also the tokens of a text,
// what a text spells, and the tables that a reader finds by them. Knows no notation.
#![tactic(auto)]

mod bytes; // classes of bytes, and runs of one class
mod number; // numbers in digits
mod word; // words

pub use bytes::{Class, class_of, run_of};
pub use number::{MOST_NUMBER, read_number};
pub use word::same;
