// A barrier: either unset, or expecting a count with what has registered so far; and counters, which stay at their largest.
#![tactic(auto)]

mod barrier; // a barrier, and what registering does to it
mod counting; // counters that stay at their largest

pub use barrier::{Barrier, Met, Phase, Registration};
pub use counting::more;
