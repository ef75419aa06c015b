// The bits of a row from m on, cleared.
ghost use Rattle.std.specs.Prelude.{◌+◌, ◌/◌, ◌≤◌, length};
ghost use Rattle.relation.specs.Bits.{RowIs};
ghost use Rattle.relation.specs.Needs.{RowIn};
ghost use Rattle.relation.specs.Table.{width, words};
ghost use Rattle.closing.specs.Needs.{RowsAre, trimmed};

// The padding of row i is cleared, in rows of one word more than m fills: rows that have padding are so.
fn trim_row(room: &mut [u32], m: u32, i: u32)
    requires { RowIn (length room.old) (m / 32 + 1) i }
    ensures { RowIs room.old room.new (m / 32 + 1) i (trimmed room.old (m / 32 + 1) m i) }
{
    let full = m as usize / 32;
    let last = i as usize * (full + 1) + full;
    let used = m % 32;
    room[last] %= 1 << used;
}

// The padding of each row is cleared, where rows have padding.
pub(crate) fn trim(room: &mut [u32], m: u32)
    requires { words m ≤ length room.old }
    ensures { RowsAre room.old room.new (width m) m (trimmed room.old (width m) m) }
{
    if m % 32 == 0 {
        return;
    }
    for i in 0..m {
        trim_row(room, m, i);
    }
}
