// The tokens of the written notation, which of them write which listing, and what a token does.
#![tactic(auto)]

mod automaton; // what is expected next, and what a token does
mod tokens; // the tokens of a text

pub use automaton::{State, TokenMove, may_end, take_token};
pub use tokens::{Met, Token, token_at};
