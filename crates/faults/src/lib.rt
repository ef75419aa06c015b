// The faults that offered generations and a table of what reaches what show: commands too late for a barrier's reuse, and races.
#![tactic(auto)]

mod faults; // the reuse and race tests

pub use faults::{Fault, Seen, is_fault, pair_of};
