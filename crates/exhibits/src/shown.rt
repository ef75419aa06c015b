// What a schedule shows, judged again.
ghost use Rattle.std.specs.Prelude.{◌≡◌, ◌≤◌, length};
ghost use Rattle.rooms.specs.Rooms.{number_at};
ghost use Rattle.exhibits.specs.Shown.{other_generation_of, what_is_shown};
ghost use Rattle.exhibits.specs.Needs.{Offered};

use replay::judge;
use tables::Tables;
use verdicts::Verdict;
use wording::Shown;

// The lowest command whose generation is not the one offered, with both; or m, which `other_generation_of` says too: any sheet has its exhibits.
fn other_generation(found: &[u32], offered: &[u32], m: usize) -> Shown
    requires { (m ≤ length found.now) × (m ≤ length offered.now) }
    ensures { result ≡ other_generation_of (number_at found.now) (number_at offered.now) m }
{
    for c in 0..m {
        if found[c] != offered[c] {
            return Shown::Generation(c, found[c], offered[c]);
        }
    }
    Shown::Generation(m, 0, 0)
}

// What a schedule shows against the generations offered.
pub(crate) fn shown_by(tables: Tables, generations: &[u32], schedule: &[u32]) -> Shown
    requires { Offered tables.commands.now tables.lengths.now generations.now }
    ensures { result ≡ what_is_shown tables.entry.commands.now tables.entry.lengths.now (number_at generations.now) schedule.now }
{
    let judged = judge(tables, schedule);
    match judged.verdict {
        Verdict::Mismatch(command) => Shown::Mismatch(command),
        Verdict::Blocked(command) => Shown::Deadlock(command),
        Verdict::StillSet(barrier) => Shown::LeftSet(barrier),
        _ => other_generation(&judged.generations, generations, tables.commands.len() / 3),
    }
}
