// The start and the step, for any numbers in any room.
ghost use Rattle.std.specs.Prelude.{◌≡◌};
ghost use Rattle.machine.specs.Needs.{CanStep, warp_in, Becomes};
ghost use Rattle.machine.specs.Step.{next_warp, workable, StartsWarp, StepsWarp};

use crate::rules::{Obeyed, enter};
use crate::stack::{Stack, StackEntry, Stand, Tower};
use kernels::Kernel;
use lanes::{Lanes, all_of};

// What a step needs.
fn fits(code: &[u32], stack: &[u64], height: usize) -> bool
    ensures { result ≡ workable code.now stack.now height }
{
    (code.len() / 5 <= Kernel::STATEMENTS)
        & (Stack::ROOM <= stack.len())
        & (height <= Stack::ENTRIES)
}

// The start of a kernel with so many lanes, into a room.
pub fn start_warp(code: &[u32], lanes: u32, stack: &mut [u64]) -> Stand
    ensures { StartsWarp code.now lanes stack.old stack.new result }
{
    let none = Lanes {
        active: 0,
        broke: 0,
        returned: 0,
    };
    if fits(code, stack, 0) {
        let mut tower = Tower {
            room: stack,
            height: 0,
        };
        let active = all_of(lanes);
        enter(&mut tower, code, 0, active);
        return Stand {
            height: tower.height,
            lanes: Lanes { active, ..none },
        };
    }
    Stand {
        height: 0,
        lanes: none,
    }
}

// One step, by the topmost entry.
fn move_on(
    tower: &mut Tower<'_>,
    code: &[u32],
    expressions: &[u32],
    lanes: Lanes,
    cells: &mut [u32],
) -> Lanes
    requires { CanStep code.now tower.old }
    ensures { Becomes tower.old tower.new result cells.new
        (next_warp code.now expressions.now (warp_in tower.old lanes cells.old)) }
{
    if tower.height == 0 {
        return lanes;
    }
    tower.height -= 1;
    match StackEntry::of(tower.room[tower.height]) {
        StackEntry::Token(kind, mask) => lanes.wake(kind, mask),
        StackEntry::Row(i) if lanes.active != 0 => {
            let row = Obeyed {
                code,
                expressions,
                i,
                lanes,
            };
            row.obey(tower, cells)
        }
        StackEntry::Again(i) if lanes.active != 0 => {
            let row = Obeyed {
                code,
                expressions,
                i,
                lanes,
            };
            // the while stays on top
            tower.height += 1;
            row.repeat(tower, cells)
        }
        _ => {
            tower.drop_rows();
            lanes
        }
    }
}

// One step of a warp, in place. What cannot be stepped stays as it is.
pub fn step_warp(
    code: &[u32],
    expressions: &[u32],
    stand: Stand,
    stack: &mut [u64],
    cells: &mut [u32],
) -> Stand
    ensures { StepsWarp code.now expressions.now stand stack.old cells.old
        stack.new cells.new result }
{
    if fits(code, stack, stand.height) {
        let mut tower = Tower {
            room: stack,
            height: stand.height,
        };
        let lanes = move_on(&mut tower, code, expressions, stand.lanes, cells);
        return Stand {
            height: tower.height,
            lanes,
        };
    }
    stand
}
