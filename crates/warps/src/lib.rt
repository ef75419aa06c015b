// Warps through divergent branches: source document 001's Tables 2, 4 and 5.
//
// This crate is mathematics alone, and has no function. A warp of n lanes has one stack of statements and tokens, an active mask, disable states and cells; Table 2 is its
// step. A single thread has a stack of its own; Table 4 is its step, and threads interleave. Proved of any kernel that has `break` only within loops:
//
//   highest stays    of several active lanes that write one cell, the highest one's value stays
//   one way          with that order of writes, Table 2 leaves no choice
//   goes on          a reachable warp steps on until its stack is empty
//   proposition 1    a step of a reachable warp is matched by some steps of single threads, that end in the same memory and leave each lane what the warp still holds for it
//   theorem 1        and so is a whole run
//
// Not claimed: that the stack will be empty. Document 001, section 5, shows kernels whose warp never ends although single threads could.
//
// To believe these, read specs/ beside document 001, in the order of its Lib. proofs/Theorems has one proof for each name of Claims.
//
// What the crate does not know: arrays, words and bits, limits, tables and rows, refusals.
#![tactic(auto)]
