// Refusal 17 of an expression.
ghost use Rattle.std.specs.Prelude.{◌≡◌};
ghost use Rattle.kernels.specs.Refusals.{does_expression_fail, has_bad_expression};

use crate::kernel::{ExpressionKind, Kernel};
use crate::rows::{Expression, first};

// Is a row bad, as row i of the expressions?
fn expression_fails(i: usize, row: Expression) -> bool
    ensures { result ≡ does_expression_fail i row.kind row.x row.y }
{
    let Some(kind) = ExpressionKind::of(row.kind) else {
        return true;
    };
    match kind {
        ExpressionKind::Number | ExpressionKind::Lane => false,
        ExpressionKind::Cell => Kernel::CELLS <= row.x as usize,
        ExpressionKind::Sum | ExpressionKind::Difference | ExpressionKind::Less => {
            (i <= row.x as usize) | (i <= row.y as usize)
        }
    }
}

// Is some expression bad?
pub(crate) fn some_bad_expression(e: &[u32]) -> bool
    ensures { result ≡ has_bad_expression e.now }
{
    first(e.len() / 3, |i| expression_fails(i, Expression::at(e, i))).is_some()
}
