// What rows name, of any numbers.
ghost use Rattle.std.specs.Prelude.{◌≡◌};
ghost use Rattle.tables.specs.Rows.{name};
ghost use Rattle.tables.specs.Promise.{AnswersSameName};

// The barrier or the address of row c. What stands past the table counts as 0.
fn name_of(commands: &[u32], c: usize) -> u32
    ensures { result ≡ name commands.now c }
{
    let at = c.saturating_mul(3).saturating_add(1);
    commands.get(at).copied().unwrap_or(0)
}

// Have rows i and j the same barrier, or the same address?
pub fn same_name(commands: &[u32], i: usize, j: usize) -> bool
    ensures { AnswersSameName commands.now i j result }
{
    name_of(commands, i) == name_of(commands, j)
}
