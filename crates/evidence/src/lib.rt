// Evidence: schedules that show a fault to be real.
#![tactic(auto)]

mod door; // a review with evidence
mod writing; // schedules into a room, one after the other

pub use door::{Evidence, review_evidence};
