// The lanes for which an expression is not 0.
ghost use Rattle.std.specs.Prelude.{◌≡◌, ◌+◌, ◌*◌, ◌^◌, ◌<◌, ◌≤◌, if◌then◌else◌};
ghost use Rattle.warps.specs.Language.{test};
ghost use Rattle.kernels.specs.Limits.{most_expressions};
ghost use Rattle.values.specs.Expressions.{expression, acting};
ghost use Rattle.values.specs.Promise.{AnswersActingLanes};
ghost use Rattle.values.specs.Needs.{CanFill, Zeroed};

use crate::rows::value;
use crate::wide::fill_rows;
use kernels::Kernel;

// Sizes of the room for values. An empty room costs time, so that the smallest that serves is taken; the last is for every row and lane.
const SMALL: usize = 256;

const MIDDLE: usize = 2048;

const FULL: usize = 8192;

// How many lanes there are up to the highest of a mask.
fn lane_count(mask: u32) -> u32
    ensures { (mask < 2 ^ result) × (result ≤ 32) }
{
    32 - mask.leading_zeros()
}

// A mask of one lane, if row `root` is not 0 for it.
fn acting_alone(expressions: &[u32], root: usize, lane: u32, mask: u32, cells: &[u32]) -> u32
    ensures { result ≡ (if test (expression expressions.now root) lane cells.now then mask else 0) }
{
    if value(expressions, root, lane, cells) != 0 {
        return mask;
    }
    0
}

// Of the first `count` lanes, those in a mask for which row `root` is not 0; the room is for the values.
fn acting_in(
    expressions: &[u32],
    root: usize,
    mask: u32,
    count: u32,
    cells: &[u32],
    values: &mut [u32],
) -> u32
    requires { Zeroed values.old × CanFill values.old root count }
    ensures { result ≡ acting mask (expression expressions.now root) cells.now count }
{
    fill_rows(expressions, root, count as usize, cells, values);
    let from = root * (count as usize);
    let mut found = 0u32;
    for t in 0..count {
        if ((mask >> t) % 2 == 1) & (values[from + t as usize] != 0) {
            found |= 1u32 << t;
        }
    }
    found
}

// The same, in a room of N values.
fn acting_sized<const N: usize>(
    expressions: &[u32],
    root: usize,
    mask: u32,
    count: u32,
    cells: &[u32],
) -> u32
    requires { ((root + 1) * count ≤ N) × (N ≤ 8192) × (root < most_expressions) × (count ≤ 32) }
    ensures { result ≡ acting mask (expression expressions.now root) cells.now count }
{
    let mut values = [0u32; N];
    acting_in(expressions, root, mask, count, cells, &mut values)
}

// The same, in the smallest room that serves.
fn acting_several(expressions: &[u32], root: usize, mask: u32, count: u32, cells: &[u32]) -> u32
    requires { (root < most_expressions) × (count ≤ 32) }
    ensures { result ≡ acting mask (expression expressions.now root) cells.now count }
{
    let needed = (root + 1) * (count as usize);
    if needed <= SMALL {
        return acting_sized::<SMALL>(expressions, root, mask, count, cells);
    }
    if needed <= MIDDLE {
        return acting_sized::<MIDDLE>(expressions, root, mask, count, cells);
    }
    acting_sized::<FULL>(expressions, root, mask, count, cells)
}

// The lanes of a mask for which row `root` is not 0; there are none past the limit.
pub fn acting_lanes(expressions: &[u32], root: usize, mask: u32, cells: &[u32]) -> u32
    ensures { AnswersActingLanes expressions.now root mask cells.now result }
{
    if root >= Kernel::EXPRESSIONS {
        return 0;
    }
    let count = lane_count(mask);
    if count == 0 {
        return 0;
    }
    if mask == 1u32 << (count - 1) {
        return acting_alone(expressions, root, count - 1, mask, cells);
    }
    acting_several(expressions, root, mask, count, cells)
}
