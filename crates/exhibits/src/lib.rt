// What is printed of evidence: schedules, each below a line that says what it shows. Read in this order: shown, exhibit.
#![tactic(auto)]

mod exhibit; // the exhibits of a verdict, and their door
mod shown; // what a schedule shows, judged again

pub use exhibit::put_exhibits;
