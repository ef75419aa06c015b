// The two tables as a program of `schedules`, with its threads. It has no function: specs/Program says which program tables are, and proofs/
// that tables which pass are a lawful one.
#![tactic(auto)]
