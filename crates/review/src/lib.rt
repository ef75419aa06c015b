// The review of a program's tables and an offered schedule.
#![tactic(auto)]

mod judge; // the review itself

pub use judge::review;
