// The rooms that a review is lent: whether tables pass and their rooms suffice, before any of them is touched.
#![tactic(auto)]

mod refusal; // refusals 1 to 4, of tables and the lengths of the two rooms
mod short; // the first room of a list that is short

pub use refusal::{admits, refuse, refuse_sizes};
pub use short::{Room, short_room};
