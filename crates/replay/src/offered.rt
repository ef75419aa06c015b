// The judge of an offered schedule.
ghost use Rattle.std.specs.Prelude.{◌≡◌};
ghost use Rattle.verdicts.specs.Verdicts.{numbered};
ghost use Rattle.steps.specs.Ending.{judged};
ghost use Rattle.replay.specs.Doors.{Replays};

use steps::{Replayed, go_on};
use tables::{Table, Tables};
use verdicts::Verdict;

// A verdict, and the generation of each command that ran. No Result: 7 to 9 come with generations, too.
#[derive(Clone, Copy)]
pub struct Judged {
    pub verdict: Verdict,
    pub generations: [u32; Table::ROWS],
}

// 5 and 7, then 6, 8 and 9, or 0.
fn conclude(replayed: Replayed, lengths: &[u32]) -> Verdict
    ensures { numbered result ≡ judged lengths.now replayed }
{
    match replayed.verdict {
        Verdict::Clean => replayed.state.ending(lengths, replayed.steps),
        verdict => verdict,
    }
}

// Any tables, any schedule: 5 to 9, or 0. The tables are not checked, and nothing is written.
pub fn judge(tables: Tables, schedule: &[u32]) -> Judged
    ensures { Replays tables.entry.commands.now tables.entry.lengths.now schedule.now result }
{
    let replayed = go_on(Replayed::start(), tables.commands, tables.lengths, schedule);
    let verdict = conclude(replayed, tables.lengths);
    let generations = replayed.generations;
    Judged {
        verdict,
        generations,
    }
}
