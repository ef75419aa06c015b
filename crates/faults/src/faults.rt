// The reuse test and the race test.
ghost use Rattle.std.specs.Prelude.{◌≡◌};
ghost use Rattle.faults.specs.Tests.{succeeds_by, reuse_by, conflict_by, unordered, race_by};
ghost use Rattle.faults.specs.Promise.{AnswersPairOf, AnswersIsFault};

use relation::related;
use sheet::Pair;
use tables::Table;

// What is looked for. One search goes by it, and the definitions of both kinds take it too, so that a closure for each test would say no more.
#[derive(Clone, Copy)]
pub enum Fault {
    Reuse,
    Race,
}

// What the tests see of a command. The head is the row that its thread begins at. The kind is a number, since any may stand in the tables of a caller.
#[derive(Clone, Copy)]
pub struct Seen {
    pub row: u32,
    pub kind: u32,
    pub name: u32,
    pub generation: u32,
    pub head: usize,
}

// Have c1 and c2 the same barrier, and is c2 one generation after c1? The early returns are for speed, here and below.
#[tactic(auto, unfolding(crate::specs::Tests::succeeds_by))]
fn succeeds(c1: Seen, c2: Seen) -> bool
    ensures { result ≡ succeeds_by c1 c2 }
{
    let both = (Table::ARRIVE <= c1.kind) & (Table::ARRIVE <= c2.kind);
    if c1.name != c2.name {
        return false;
    }
    if c1.generation as u64 + 1 != c2.generation as u64 {
        return false;
    }
    both
}

// Is (c1, c2) a reuse fault? Unless its head is a row before it c2 is first, so that past the test there is a row before c2.
#[tactic(auto, unfolding(crate::specs::Tests::reuse_by))]
fn is_reuse(relation: &[u32], m: u32, c1: Seen, c2: Seen) -> bool
    ensures { result ≡ reuse_by relation.now m c1 c2 }
{
    if !succeeds(c1, c2) {
        return false;
    }
    if c2.row as usize <= c2.head {
        return true;
    }
    !related(relation, m, c1.row, c2.row - 1)
}

// Are x and y accesses to the same address, and is one a write?
#[tactic(auto, unfolding(crate::specs::Tests::conflict_by))]
fn conflict(x: Seen, y: Seen) -> bool
    ensures { result ≡ conflict_by x y }
{
    let accesses = (x.kind < Table::ARRIVE) & (y.kind < Table::ARRIVE);
    let same_address = x.name == y.name;
    accesses & same_address & ((x.kind == Table::WRITE) | (y.kind == Table::WRITE))
}

// Does neither of x and y reach the other?
fn unordered(relation: &[u32], m: u32, x: u32, y: u32) -> bool
    ensures { result ≡ unordered relation.now m x y }
{
    if related(relation, m, x, y) {
        return false;
    }
    !related(relation, m, y, x)
}

// Is (x, y) a race?
#[tactic(auto, unfolding(crate::specs::Tests::race_by))]
fn is_race(relation: &[u32], m: u32, x: Seen, y: Seen) -> bool
    ensures { result ≡ race_by relation.now m x y }
{
    if x.row >= y.row {
        return false;
    }
    if !conflict(x, y) {
        return false;
    }
    if x.head == y.head {
        return false;
    }
    unordered(relation, m, x.row, y.row)
}

// The search goes by an outer number i and an inner number j. For reuse i is c2 and j is c1; for races i is x and j is y.
pub fn pair_of(fault: Fault, i: usize, j: usize) -> Pair
    ensures { AnswersPairOf fault i j result }
{
    match fault {
        Fault::Reuse => Pair {
            first: j,
            second: i,
        },
        Fault::Race => Pair {
            first: i,
            second: j,
        },
    }
}

// Are the outer and the inner command such a fault, by the table of what reaches what among m commands?
pub fn is_fault(fault: Fault, relation: &[u32], m: u32, outer: Seen, inner: Seen) -> bool
    ensures { AnswersIsFault fault relation.now m outer inner result }
{
    match fault {
        Fault::Reuse => is_reuse(relation, m, inner, outer),
        Fault::Race => is_race(relation, m, outer, inner),
    }
}
