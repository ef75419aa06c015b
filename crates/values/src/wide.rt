// The rows one after the other, for several lanes at once: in a room the values of row i stand from `i * count` on, a number a lane.
ghost use Rattle.std.specs.Prelude.{◌≡◌, ℕ, ◌+◌, ◌*◌, ◌^◌, ◌<◌, ◌≤◌, length};
ghost use Rattle.kernels.specs.Rows.{sum_expr, expression_number};
ghost use Rattle.values.specs.Needs.{strip_of, Strips, StripDone, CanFill, RowDone, Zeroed, Valued};

use crate::rows::{kind_at, leaf_value, pair_value};
use kernels::ExpressionKind;
use relation::at;

// Where the values of operand x of row i begin: those of an earlier row, or else of row i itself, where nothing stands yet.
fn strip(x: u32, i: usize, count: usize) -> usize
    requires { i * count < 2 ^ 64 }
    ensures { result ≡ strip_of count x i }
{
    i.min(x as usize) * count
}

// A row without operands.
fn fill_leaf(values: &mut [u32], kind: ExpressionKind, x: u32, held: u32, to: usize, count: usize)
    requires { (expression_number kind < sum_expr) × (to + count ≤ length values.old) × (count ≤ 32) }
    ensures { (a b : ℕ) → StripDone (expression_number kind) x held a b to count values.old values.new }
{
    for k in 0..count {
        values[to + k] = leaf_value(kind, x, held, k as u32);
    }
}

// A row with operands, whose values stand from a and from b on.
fn fill_pair(values: &mut [u32], kind: ExpressionKind, a: usize, b: usize, to: usize, count: usize)
    requires { (sum_expr ≤ expression_number kind) × Strips values.old a b to count }
    ensures { (x held : ℕ) → StripDone (expression_number kind) x held a b to count values.old values.new }
{
    for k in 0..count {
        values[to + k] = pair_value(kind, values[a + k], values[b + k]);
    }
}

// Row i.
fn fill_row(expressions: &[u32], i: usize, count: usize, cells: &[u32], values: &mut [u32])
    requires { CanFill values.old i count }
    ensures { RowDone expressions.now i count cells.now values.old values.new }
{
    let kind = kind_at(expressions, i);
    let x = at(expressions, 3 * i + 1, 0);
    match kind {
        ExpressionKind::Number | ExpressionKind::Cell | ExpressionKind::Lane => {
            let held = at(cells, x as usize, 0);
            fill_leaf(values, kind, x, held, i * count, count);
        }
        ExpressionKind::Sum | ExpressionKind::Difference | ExpressionKind::Less => {
            let y = at(expressions, 3 * i + 2, 0);
            let a = strip(x, i, count);
            let b = strip(y, i, count);
            fill_pair(values, kind, a, b, i * count, count);
        }
    }
}

// The rows up to `root`, for the first `count` lanes, into a room in which nothing stands.
pub(crate) fn fill_rows(
    expressions: &[u32],
    root: usize,
    count: usize,
    cells: &[u32],
    values: &mut [u32],
)
    requires { Zeroed values.old × CanFill values.old root count }
    ensures { Valued expressions.now root count cells.now values.new }
{
    for i in 0..root + 1 {
        fill_row(expressions, i, count, cells, values);
    }
}
