// What a step changes.
ghost use Rattle.std.specs.Prelude.{◌≡◌, ◌<◌};
ghost use Rattle.tables.specs.Limits.{barriers};
ghost use Rattle.steps.specs.Needs.{still, wait_of, entering, changed, KnownRow};

use crate::row::{Entrant, Row};
use crate::step::{Did, How};
use barriers::{Barrier, Met, more};
use tables::Table;

// A barrier that was entered, and what it is then.
#[derive(Clone, Copy)]
pub(crate) struct Entered {
    pub(crate) barrier: usize,
    pub(crate) after: Barrier,
}

// What the step did; what its thread waits for then; what those waited for who are released; and the barrier that it entered.
// Both waits are numbers, 0 or the barrier plus 1, as the state's list holds them: an Option would only be made a number again.
#[derive(Clone, Copy)]
pub(crate) struct Change {
    pub(crate) did: Did,
    pub(crate) wait: u32,
    pub(crate) frees: u32,
    pub(crate) entered: Option<Entered>,
}

fn still(did: Did) -> Change
    ensures { result ≡ still did }
{
    Change {
        did,
        wait: 0,
        frees: 0,
        entered: None,
    }
}

#[tactic(auto, unfolding(tables::specs::Limits::barriers, tables::specs::Limits::most_threads))]
fn wait_if(syncs: bool, b: usize) -> u32
    requires { b < barriers }
    ensures { result ≡ wait_of syncs b }
{
    if syncs { b as u32 + 1 } else { 0 }
}

// A command meets its barrier.
fn enter(entrant: Entrant, barrier: Barrier) -> Change
    requires { entrant.barrier < barriers }
    ensures { result ≡ entering entrant barrier }
{
    let c = entrant.command;
    let b = entrant.barrier;
    let generation = more(barrier.done);
    let registration = barrier.register(entrant.count);
    let met = registration.met;
    let after = registration.after;
    match met {
        Met::Clash => still(Did::Took(How::Mismatch(c))),
        Met::Stays => Change {
            did: Did::Took(How::Ran(c, generation)),
            wait: wait_if(entrant.syncs, b),
            frees: 0,
            entered: Some(Entered { barrier: b, after }),
        },
        Met::Completes => Change {
            did: Did::Took(How::Ran(c, generation)),
            wait: wait_if(entrant.syncs, b),
            frees: b as u32 + 1,
            entered: Some(Entered { barrier: b, after }),
        },
    }
}

// What a row changes, where the barriers are these.
#[tactic(auto, unfolding(tables::specs::Limits::barriers))]
pub(crate) fn run_row(row: Row, barriers: &[Barrier; Table::BARRIERS]) -> Change
    requires { KnownRow row }
    ensures { result ≡ changed row barriers.now }
{
    match row {
        Row::NotAllowed => still(Did::NotAllowed),
        Row::Passes(c) => still(Did::Took(How::Ran(c, 0))),
        Row::Enters(entrant) => enter(entrant, barriers[entrant.barrier]),
    }
}
