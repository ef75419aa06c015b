// The written notation: a text read into the two tables of a program.
#![tactic(auto)]

mod reading; // refusals 12 and 13, the tables, the rest of a text
mod scan; // the two passes over a text

pub use reading::{Reading, Text, Unread, read, rest, told};
pub use scan::Sizes;
