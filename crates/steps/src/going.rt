// Any entries of a schedule, from any point, step by step. The state is taken and returned by value once; each step stores only what it changes.
ghost use Rattle.std.specs.Prelude.{◌≡◌};
ghost use Rattle.verdicts.specs.declared.Verdict.TheVariants as verdict;
ghost use Rattle.steps.specs.Going.{standing};
ghost use Rattle.steps.specs.Promise.{AnswersReplayedStart, AnswersGoOn};

use crate::firsts::first_rows;
use crate::state::Replay;
use crate::step::{Did, How};
use barriers::more;
use relation::at;
use tables::Table;
use turns::put;
use verdicts::Verdict;

// Where a replay has come to: the state, each command's generation, the steps that ran, and 5, 7 or, if all ran, 0. No Result: all else is told with 5 and 7, too.
#[derive(Clone, Copy)]
pub struct Replayed {
    pub state: Replay,
    pub generations: [u32; Table::ROWS],
    pub steps: u32,
    pub verdict: Verdict,
}

impl Replayed {
    // Nothing has run.
    pub fn start() -> Self
        ensures { AnswersReplayedStart result }
    {
        Replayed {
            state: Replay::start(),
            generations: [0u32; Table::ROWS],
            steps: 0,
            verdict: Verdict::Clean,
        }
    }
}

fn stop(state: Replay, generations: [u32; Table::ROWS], steps: u32, verdict: Verdict) -> Replayed
    ensures { result ≡ standing state generations steps verdict }
{
    Replayed {
        state,
        generations,
        steps,
        verdict,
    }
}

// Where the replay has ended, nothing changes.
pub fn go_on(from: Replayed, commands: &[u32], lengths: &[u32], entries: &[u32]) -> Replayed
    ensures { AnswersGoOn from commands.now lengths.now entries.now result }
{
    let verdict = from.verdict;
    if !matches!(verdict, Verdict::Clean) {
        return from;
    }
    let state = from.state;
    let generations = from.generations;
    play(state, generations, from.steps, commands, lengths, entries)
}

// The steps of entries, from a point where the replay has not ended.
#[tactic(auto, unfolding(tables::specs::Limits::barriers, tables::specs::Limits::most_rows))]
fn play(
    from: Replay,
    before: [u32; Table::ROWS],
    ran: u32,
    commands: &[u32],
    lengths: &[u32],
    entries: &[u32],
) -> Replayed
    ensures { AnswersGoOn (standing from before ran verdict.Clean) commands.now lengths.now entries.now result }
{
    let firsts = first_rows(lengths);
    let mut state = from;
    let mut generations = before;
    let mut steps = ran;
    for entry in entries {
        let t = *entry as usize;
        let made = state.change(commands, lengths, t, at(&firsts, t, 0));
        let did = made.did;
        let Did::Took(how) = did else {
            return stop(
                state,
                generations,
                steps,
                Verdict::NotAllowed(steps as usize),
            );
        };
        match how {
            How::Mismatch(c) => {
                return stop(state, generations, steps, Verdict::Mismatch(c));
            }
            How::Ran(c, generation) => {
                put(&mut generations, c, generation);
            }
        }
        state.store(t, made);
        steps = more(steps);
    }
    stop(state, generations, steps, Verdict::Clean)
}
