// The replay of an offered schedule, verdicts 5 to 9, and the schedule writers.
#![tactic(auto)]

mod offered; // the judge of an offered schedule: 5 to 9
mod writer; // the schedule writers

pub use offered::{Judged, judge};
pub use writer::{write_apart, write_schedule};
