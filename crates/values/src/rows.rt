// The rows of expressions one after the other, for one lane.
ghost use Rattle.std.specs.Prelude.{◌≡◌, ℕ, ◌<◌, ◌≤◌, length, if◌then◌else◌, nat_lt, slice_index};
ghost use Rattle.kernels.specs.Limits.{most_expressions};
ghost use Rattle.kernels.specs.Rows.{sum_expr, expr_kind, expression_number};
ghost use Rattle.values.specs.Promise.{AnswersValue};
ghost use Rattle.values.specs.Needs.{value_by, SameValue, row_by};

use kernels::{ExpressionKind, Kernel};
use relation::at;

// Few rows have a small room, which is sooner empty.
const FEW: usize = 32;

// The kind of row i. A number past the kinds is a less-than.
pub(crate) fn kind_at(expressions: &[u32], i: usize) -> ExpressionKind
    requires { i < most_expressions }
    ensures { SameValue (expression_number result) (expr_kind expressions.now i) }
{
    ExpressionKind::of(at(expressions, 3 * i, 0)).unwrap_or(ExpressionKind::Less)
}

// The value of an operand, if it is an earlier row, or 0.
fn operand(values: &[u32], x: u32, i: usize) -> u32
    requires { i ≤ length values.now }
    ensures { result ≡ (if nat_lt x i then slice_index values.now x else 0) }
{
    values[..i].get(x as usize).copied().unwrap_or(0)
}

// A row without operands: the number x, what cell x holds, or the lane's number.
pub(crate) fn leaf_value(kind: ExpressionKind, x: u32, held: u32, lane: u32) -> u32
    requires { expression_number kind < sum_expr }
    ensures { (a b : ℕ) → result ≡ value_by (expression_number kind) x a b held lane }
{
    match kind {
        ExpressionKind::Number => x,
        ExpressionKind::Cell => held,
        _ => lane,
    }
}

// A row with operands, by their values.
pub(crate) fn pair_value(kind: ExpressionKind, a: u32, b: u32) -> u32
    requires { sum_expr ≤ expression_number kind }
    ensures { (x held lane : ℕ) → result ≡ value_by (expression_number kind) x a b held lane }
{
    match kind {
        ExpressionKind::Sum => a.wrapping_add(b),
        ExpressionKind::Difference => a.wrapping_sub(b),
        _ => u32::from(a < b),
    }
}

// Row i for a lane, from the values of the rows before it. Two matches: one of six arms was no quicker by long expressions and slower by short ones (bench/warps.c).
fn row_value(expressions: &[u32], i: usize, lane: u32, cells: &[u32], values: &[u32]) -> u32
    requires { (i < most_expressions) × (i < length values.now) }
    ensures { result ≡ row_by expressions.now i lane cells.now values.now }
{
    let kind = kind_at(expressions, i);
    let x = at(expressions, 3 * i + 1, 0);
    match kind {
        ExpressionKind::Number | ExpressionKind::Cell | ExpressionKind::Lane => {
            leaf_value(kind, x, at(cells, x as usize, 0), lane)
        }
        ExpressionKind::Sum | ExpressionKind::Difference | ExpressionKind::Less => {
            let y = at(expressions, 3 * i + 2, 0);
            pair_value(kind, operand(values, x, i), operand(values, y, i))
        }
    }
}

// The value of row `root` for a lane, in a room of N values.
fn evaluate<const N: usize>(expressions: &[u32], root: usize, lane: u32, cells: &[u32]) -> u32
    requires { (root < most_expressions) × (root < N) × (N ≤ most_expressions) }
    ensures { AnswersValue expressions.now root lane cells.now result }
{
    let mut values = [0u32; N];
    for i in 0..root + 1 {
        values[i] = row_value(expressions, i, lane, cells, &values);
    }
    values[root]
}

// The value of row `root` for a lane, or 0 past the limit. Expressions, row and cells stay parameters: with a struct of them a step by long expressions took 1.1 times as long (bench/warps.c).
pub fn value(expressions: &[u32], root: usize, lane: u32, cells: &[u32]) -> u32
    ensures { AnswersValue expressions.now root lane cells.now result }
{
    if root < FEW {
        return evaluate::<FEW>(expressions, root, lane, cells);
    }
    if root < Kernel::EXPRESSIONS {
        return evaluate::<{ Kernel::EXPRESSIONS }>(expressions, root, lane, cells);
    }
    0
}
