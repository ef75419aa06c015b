// Schedules: what one clean schedule of a named-barrier program says of all its schedules.
//
// This crate is mathematics alone, and has no function. It takes any program, a number of commands of which some register at barriers, with
// any number of threads, runs its schedules by the rules (R10 to R23), and proves:
//
//   completion   every legal schedule goes on to a complete one
//   all ran      what is clean has run everything
//   (S) sound    if one clean schedule has no reuse fault, every complete schedule is clean and has the same generations
//   (C) real     if a clean schedule has a reuse fault, some complete schedule is not clean or has another generation
//   agreement    so all complete schedules end clean with the same generations exactly when one clean schedule has no reuse fault,
//                and never when some complete schedule is not clean
//   (F) one file two clean schedules of a program without a reuse fault have the same generations and the same happens-before
//   (A)  always  without a reuse fault an access runs after all that reaches it, in every complete schedule
//   (E)  either  and before anything that does not reach it, in some complete schedule
//   one order    so, without a reuse fault, two different accesses stand in one order in all complete schedules exactly when one
//                reaches the other
//   decided      a reuse fault, and what reaches what, can be computed: the table `reach` tells
//
// To believe these, read specs/, a few short modules of definitions, in this order:
//
//   Tally     counting the numbers that pass a test
//   Machine   a program, its state, one step: registering, mismatch, completing, generations
//   Threads   schedules of threads: blocked, allowed, legal, complete, clean
//   HappensBefore  what reaches what, the reuse fault, and what runs before what
//   Claims    every statement above as a named type, with a sentence
//
// proofs/Theorems has one proof for each name of Claims. The modules before it, in their order:
//
//   Tally     laws of counting: of two sets of one size, one inside the other, both are the same
//   Logs      schedules without threads, as logs of commands: what the proofs work with
//   Step      one step: what a command that runs changes
//   Good      what holds after every legal log: a complete generation has its count, an open one fewer
//   Tests     what can be tested in a state
//   Along     what a log has run, a longer one has run too
//   Final     a clean log has run everything, and no generation is open
//   Agree     a state of the same generations: what reaches a ready command is ready, so without a reuse fault each command comes when due
//   Sound     (S) over logs
//   Table     the table `reach` decides
//   Cut       a clean log without what one command reaches
//   Real      (C) over logs: such a log lets c₂ run while c₁ waits
//   Ordered   (A), (E) over logs
//   Threads   schedules of threads and logs of commands come to the same
//   Completes completion: while a step is allowed, take it
//   Decided   a reuse fault or none
//
// What the crate does not know: arrays, words and bits, limits, tables and rows, addresses and conflict, the record that a barrier keeps,
// verdicts. Which two commands may not register in one generation is a parameter, `clash`: the laws asked of it are in `Lawful`.
#![tactic(auto)]
