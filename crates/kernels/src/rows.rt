// The rows of both tables, what a statement uses, and searches for rows.
ghost use Rattle.std.specs.Prelude.{◌≡◌, Bool, ◌||◌, ◌&&◌, ℕ, ◌<◌, eqb};
ghost use Rattle.tables.specs.Lowest.{found};
ghost use Rattle.kernels.specs.Rows.{statements, expressions, call_kind, statement_number};
ghost use Rattle.kernels.specs.Refusals.{has_list, has_body, missing, is_used_elsewhere};
ghost use Rattle.kernels.specs.Needs.{statement_row, expression_row};

use crate::kernel::StatementKind;

// The tables stay rows of numbers, as C lends them to `probe_warp`: `at` makes a struct of a row where one is looked at.

// The numbers of a statement: the list that it lies in, its kind, and what its kind uses.
#[derive(Clone, Copy)]
pub(crate) struct Statement {
    pub(crate) list: u32,
    pub(crate) kind: u32,
    pub(crate) x: u32,
    pub(crate) y: u32,
    pub(crate) z: u32,
}

// Those of an expression.
#[derive(Clone, Copy)]
pub(crate) struct Expression {
    pub(crate) kind: u32,
    pub(crate) x: u32,
    pub(crate) y: u32,
}

impl Statement {
    // Row i of the table.
    pub(crate) fn at(s: &[u32], i: usize) -> Self
        requires { i < statements s.now }
        ensures { result ≡ statement_row s.now i }
    {
        Statement {
            list: s[5 * i],
            kind: s[5 * i + 1],
            x: s[5 * i + 2],
            y: s[5 * i + 3],
            z: s[5 * i + 4],
        }
    }

    // Is it of this kind?
    pub(crate) fn is(self, kind: StatementKind) -> bool
        ensures { result ≡ eqb self.kind (statement_number kind) }
    {
        self.kind == kind as u32
    }

    // Has it list b for an arm or a body?
    pub(crate) fn has_body(self, b: u32) -> bool
        ensures { result ≡ has_list self.kind self.y self.z b }
    {
        (self.is(StatementKind::If) & ((self.y == b) | (self.z == b)))
            | (self.is(StatementKind::While) & (self.y == b))
    }

    // Or does it call it?
    pub(crate) fn uses(self, b: u32) -> bool
        ensures { result ≡ has_list self.kind self.y self.z b || (eqb self.kind call_kind && eqb self.x b) }
    {
        self.has_body(b) | (self.is(StatementKind::Call) & (self.x == b))
    }
}

impl Expression {
    // Row i of the table.
    pub(crate) fn at(e: &[u32], i: usize) -> Self
        requires { i < expressions e.now }
        ensures { result ≡ expression_row e.now i }
    {
        Expression {
            kind: e[3 * i],
            x: e[3 * i + 1],
            y: e[3 * i + 2],
        }
    }
}

// The first number below n that passes a test. It is the crate's own: a test that is passed needs a `requires`, and a public function has none.
pub(crate) fn first<F: Fn(usize) -> bool>(n: usize, test: F) -> Option<usize>
    requires { (i : ℕ) → i < n → F.pre test i }
    ensures { (p : ℕ → Bool) → ((i : ℕ) (r : Bool) → i < n → F.post test i r → r ≡ p i) → result ≡ found p n }
{
    // no `position`: that asks for a test of every number, and these are tests of rows that are there
    for i in 0..n {
        if test(i) {
            return Some(i);
        }
    }
    None
}

// Does no row lie in list b?
pub(crate) fn is_missing(s: &[u32], b: u32) -> bool
    ensures { result ≡ missing s.now b }
{
    first(s.len() / 5, |i| Statement::at(s, i).list == b).is_none()
}

// The first row that has list b for an arm or a body.
pub(crate) fn owner_of(s: &[u32], b: u32) -> Option<usize>
    ensures { result ≡ found (has_body s.now b) (statements s.now) }
{
    first(s.len() / 5, |i| Statement::at(s, i).has_body(b))
}

// Does another row than row i use list b?
pub(crate) fn used_elsewhere(s: &[u32], i: usize, b: u32) -> bool
    ensures { result ≡ is_used_elsewhere s.now i b }
{
    first(s.len() / 5, |j| (j != i) & Statement::at(s, j).uses(b)).is_some()
}
