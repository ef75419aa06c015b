// A warp in a lent room: its start, and its step by Table 2 of source document 001.
#![tactic(auto)]

mod moves; // the start and the step
mod rules; // the statements' rules
mod stack; // the stack in its room

pub use moves::{start_warp, step_warp};
pub use stack::{Stack, Stand};
