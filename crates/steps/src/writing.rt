// The schedule that a choice writes, from any state.
ghost use Rattle.tables.specs.Limits.{most_threads};
ghost use Rattle.turns.proofs.Kept.{LookedBelow};
ghost use Rattle.steps.specs.Needs.{FirstRows};
ghost use Rattle.steps.specs.Promise.{WritesOn};

use crate::firsts::first_rows;
use crate::state::Replay;
use crate::step::goes_on;
use relation::at;
use tables::Table;
use turns::{Ready, blocked_after, blocked_set};

// Where all threads stand.
fn all_ready(
    lengths: &[u32],
    firsts: &[usize; Table::THREADS],
    next: &[u32],
    early: &[bool],
) -> Ready
    requires { FirstRows lengths.now most_threads firsts.now }
    ensures { LookedBelow lengths.now early.now next.now result most_threads }
{
    let mut ready = Ready::none();
    for t in 0..Table::THREADS {
        let n = at(next, t, 0);
        ready = ready.look(lengths, early, t, n, firsts[t] + n as usize);
    }
    ready
}

// The commands of a list go first. The schedule stands first in the room, which it may fill, and its length is answered.
#[tactic(auto, unfolding(tables::specs::Limits::barriers, tables::specs::Limits::most_threads))]
pub fn write_on(
    from: Replay,
    commands: &[u32],
    lengths: &[u32],
    early: &[bool],
    room: &mut [u32],
) -> usize
    ensures { WritesOn from commands.now lengths.now early.now
        room.old room.new result }
{
    let firsts = first_rows(lengths);
    let mut state = from;
    let mut ready = all_ready(lengths, &firsts, &state.next, early);
    let mut blocked = blocked_set(lengths, &state.waits);
    for steps in 0..room.len() {
        let Some(t) = ready.choose(blocked) else {
            return steps;
        };
        room[steps] = t as u32;
        let n = state.next[t];
        let first = firsts[t];
        let made = state.change(commands, lengths, t, first);
        if !goes_on(made.did) {
            return steps + 1;
        }
        state.store(t, made);
        ready = ready.look(lengths, early, t, n + 1, first + n as usize + 1);
        blocked = blocked_after(blocked, lengths, &state.waits, t, made.wait, made.frees);
    }
    room.len()
}
