// Whose turn it is, of what each thread has run and waits for. Numbers that a list has no place for are 0, so that nothing is asked of a caller.
#![tactic(auto)]

mod choice; // which thread may step
mod ready; // which threads may step, as sets
mod waiting; // what threads wait for

pub use choice::{allows, lowest_allowed};
pub use ready::Ready;
pub use waiting::{blocked_after, blocked_set, lowest_blocked, put, settle};
