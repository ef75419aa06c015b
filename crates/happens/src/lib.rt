// Happens-before over offered generations, into a lent room.
#![tactic(auto)]

mod edges; // which commands meet, and which follow
mod leaders; // one sync of each barrier and generation
mod happens; // happens-before into its room
mod pairs; // the pairs that happens-before is made of

pub use happens::put_happens_before;
