// Runs of a kernel by a warp, of at most so many steps, for any numbers in any place.
#![tactic(auto)]

ghost use Rattle.std.specs.Prelude.{◌≡◌, ◌≤◌};
ghost use Rattle.kernels.specs.Limits.{most_statements};
ghost use Rattle.kernels.specs.Rows.{statements};
ghost use Rattle.runs.specs.Run.{KernelTold, tell_run, kernel_run, RunsKernel};

use kernels::{Kernel, KernelRefusal, ruling};
use machine::{Stack, start_warp, step_warp};

// How a run ends.
#[derive(Clone, Copy, PartialEq, Eq)]
pub enum Ending {
    Finished = 1,
    UsedUp = 2,
    WouldOverfill = 3,
}

// How a run ended, and how many steps it took.
#[derive(Clone, Copy)]
pub struct Course {
    pub ending: Ending,
    pub taken: u64,
}

// A run from the start. A step that would overfill is made, told, and leaves the cells as they were.
fn run_from(code: &[u32], expressions: &[u32], lanes: u32, cells: &mut [u32], steps: u64) -> Course
    requires { statements code.now ≤ most_statements }
    ensures { ◌≡◌ {A = KernelTold} (record { answer = Ok result; cells = cells.new })
        (tell_run (kernel_run code.now expressions.now lanes steps cells.old)) }
{
    let mut stack = [0u64; Stack::ROOM];
    let mut stand = start_warp(code, lanes, &mut stack);
    for taken in 0..steps {
        if stand.height == 0 {
            return Course {
                ending: Ending::Finished,
                taken,
            };
        }
        if Stack::ENTRIES < stand.height {
            return Course {
                ending: Ending::WouldOverfill,
                taken,
            };
        }
        stand = step_warp(code, expressions, stand, &mut stack, cells);
        if stand.height > Stack::ENTRIES {
            return Course {
                ending: Ending::WouldOverfill,
                taken,
            };
        }
    }
    let ending = if stand.height == 0 {
        Ending::Finished
    } else {
        Ending::UsedUp
    };
    Course {
        ending,
        taken: steps,
    }
}

// Refusals 17 and 18, or the run. Cells past the 64th are kept, and a refusal keeps them all.
pub fn run_kernel(
    code: &[u32],
    expressions: &[u32],
    lanes: u32,
    cells: &mut [u32],
    steps: u64,
) -> Result<Course, KernelRefusal>
    ensures { RunsKernel code.now expressions.now lanes steps cells.old cells.new result }
{
    if cells.len() < Kernel::CELLS {
        return Err(KernelRefusal::Malformed(0));
    }
    ruling(code, expressions, lanes)?;
    Ok(run_from(code, expressions, lanes, cells, steps))
}
