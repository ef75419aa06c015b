// Both refusals, in the order tested.
ghost use Rattle.std.specs.Prelude.{◌≡◌, ◌<◌};
ghost use Rattle.kernels.specs.Refusals.{is_bad_length, are_bad_tables};
ghost use Rattle.kernels.specs.Promise.{AnswersRuling};

use crate::expressions::some_bad_expression;
use crate::kernel::{Kernel, KernelRefusal};
use crate::statements::{first_bad_statement, first_stray_break};

// So many numbers, in rows of so many: are the rows not whole, or too many?
fn bad_length(row: usize, most: usize, numbers: usize) -> bool
    requires { 0 < row }
    ensures { result ≡ is_bad_length row most numbers }
{
    (numbers % row != 0) | (most < numbers / row)
}

// Refusal 17 where no statement is concerned. Tables over the limit are not looked into, however long they are.
fn bad_tables(s: &[u32], e: &[u32], lanes: u32) -> bool
    ensures { result ≡ are_bad_tables s.now e.now lanes }
{
    if (lanes == 0)
        | (Kernel::LANES < lanes)
        | bad_length(5, Kernel::STATEMENTS, s.len())
        | bad_length(3, Kernel::EXPRESSIONS, e.len())
    {
        return true;
    }
    some_bad_expression(e)
}

// Refusal 17 or 18 of a kernel's tables, if they do not pass.
pub fn ruling(statements: &[u32], expressions: &[u32], lanes: u32) -> Result<(), KernelRefusal>
    ensures { AnswersRuling statements.now expressions.now lanes result }
{
    if bad_tables(statements, expressions, lanes) {
        return Err(KernelRefusal::Malformed(0));
    }
    if let Some(i) = first_bad_statement(statements, expressions.len() / 3) {
        return Err(KernelRefusal::Malformed(i));
    }
    if let Some(i) = first_stray_break(statements) {
        return Err(KernelRefusal::StrayBreak(i));
    }
    Ok(())
}
