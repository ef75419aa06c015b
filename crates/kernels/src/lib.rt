// The two tables of a warp's kernel, their limits, and refusals 17 and 18.
#![tactic(auto)]

mod expressions; // 17, of an expression
mod kernel; // limits, kinds, and the answer
mod refusals; // both refusals, in the order tested
mod rows; // the numbers of a row, which rows have a list, and which lie in it
mod statements; // 17 and 18, of a statement
mod upwards; // from a row to those that it lies in

pub use kernel::{ExpressionKind, Kernel, KernelRefusal, StatementKind};
pub use refusals::ruling;
