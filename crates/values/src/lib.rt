// The values of a kernel's expressions: rows of three numbers (kind, x, y), whose operands are earlier rows.
#![tactic(auto)]

mod acting; // the lanes for which an expression is not 0
mod rows; // the rows one after the other, for one lane
mod wide; // the same for several lanes at once

pub use acting::acting_lanes;
pub use rows::value;
