// All faults of offered generations and a table of what reaches what, in their order: the search, and the verdict that it tells.
#![tactic(auto)]

mod finding; // the door: refusals 1 and 4, or the verdict of a search with its sheet
mod lists; // lists of the commands that a fault can pair
mod search; // the one ordered search for both kinds
mod searched; // what is searched
mod seen; // what the tests see of the tables

pub use finding::{Finding, bare, find_faults};
