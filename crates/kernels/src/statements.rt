// Refusal 17 of a statement, in a kernel of so many expressions, and refusal 18.
ghost use Rattle.std.specs.Prelude.{◌≡◌};
ghost use Rattle.tables.specs.Lowest.{found};
ghost use Rattle.kernels.specs.Rows.{statements};
ghost use Rattle.kernels.specs.Refusals.{is_bad_body, is_bad_assignment, is_bad_while, is_bad_if, is_bad_call, is_bad_by, is_bad_statement, is_stray_by, is_stray_break};

use crate::kernel::{Kernel, StatementKind};
use crate::rows::{Statement, first, is_missing, owner_of, used_elsewhere};
use crate::upwards::meets;

// Can list b not be row i's arm or body?
fn bad_body(s: &[u32], i: usize, b: u32) -> bool
    ensures { result ≡ is_bad_body s.now i b }
{
    (b == 0) | is_missing(s, b) | used_elsewhere(s, i, b)
}

// Is the cell x of an assignment unknown, or is there no expression y?
fn bad_assignment(count: usize, row: Statement) -> bool
    ensures { result ≡ is_bad_assignment count row.x row.y }
{
    (Kernel::CELLS <= row.x as usize) | (count <= row.y as usize)
}

// Is there no expression x for row i, can list y not be its body, or does it lie inside itself?
fn bad_while(s: &[u32], count: usize, i: usize, row: Statement) -> bool
    ensures { result ≡ is_bad_while s.now count i row.list row.x row.y }
{
    (count <= row.x as usize) | bad_body(s, i, row.y) | meets(s, row.list, |j| i == j)
}

// The same of an if and its first arm; and are both arms one list, or can list z not be the second?
fn bad_if(s: &[u32], count: usize, i: usize, row: Statement) -> bool
    ensures { result ≡ is_bad_if s.now count i row.list row.x row.y row.z }
{
    bad_while(s, count, i, row) | (row.y == row.z) | bad_body(s, i, row.z)
}

// Is a called list missing, or some row's arm or body?
fn bad_call(s: &[u32], x: u32) -> bool
    ensures { result ≡ is_bad_call s.now x }
{
    is_missing(s, x) | owner_of(s, x).is_some()
}

// Is row i bad, by its kind?
fn bad_statement(s: &[u32], count: usize, i: usize, row: Statement) -> bool
    ensures { result ≡ is_bad_by s.now count i row.list row.kind row.x row.y row.z }
{
    let Some(kind) = StatementKind::of(row.kind) else {
        return true;
    };
    match kind {
        StatementKind::Assign => bad_assignment(count, row),
        StatementKind::If => bad_if(s, count, i, row),
        StatementKind::While => bad_while(s, count, i, row),
        StatementKind::Call => bad_call(s, row.x),
        StatementKind::Skip | StatementKind::Break | StatementKind::Return => false,
    }
}

// The first bad statement.
pub(crate) fn first_bad_statement(s: &[u32], count: usize) -> Option<usize>
    ensures { result ≡ found (is_bad_statement s.now count) (statements s.now) }
{
    first(
        s.len() / 5,
        |i| bad_statement(s, count, i, Statement::at(s, i)),
    )
}

// Is a row a break outside the loops of its own function?
fn stray_break(s: &[u32], row: Statement) -> bool
    ensures { result ≡ is_stray_by s.now row.list row.kind }
{
    row.is(StatementKind::Break)
        && !meets(
            s,
            row.list,
            |j| Statement::at(s, j).is(StatementKind::While),
        )
}

// The first such break.
pub(crate) fn first_stray_break(s: &[u32]) -> Option<usize>
    ensures { result ≡ found (is_stray_break s.now) (statements s.now) }
{
    first(s.len() / 5, |i| stray_break(s, Statement::at(s, i)))
}
