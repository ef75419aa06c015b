// The steps of a replay, from any state, over any tables: one step, any entries of a schedule, how a replay ended, and the schedule that a choice writes.
// Commands and lengths stay two parameters here, and are no `Tables`: tried, and of a slice within a struct no fact says that its numbers fit 32 bits,
// by which a thread's count is shown to fit.
#![tactic(auto)]

mod change; // what a step changes
mod ending; // verdicts 6, 8 and 9: how a replay that went through ended
mod firsts; // where each thread's rows begin
mod going; // any entries of a schedule, from any point
mod row; // the next row of a thread
mod state; // the replay state
mod step; // one step of it
mod writing; // the schedule that a choice writes

pub use going::{Replayed, go_on};
pub use state::Replay;
pub use step::{Did, How, Stepped};
pub use writing::write_on;
