// For each row, where its thread begins.
ghost use Rattle.tables.specs.Heads.{Heads};
ghost use Rattle.tables.specs.Promise.{AnswersIsFirst};

// For each row, as far as the room goes, the first row of its thread; rows past all lengths begin where the lengths end.
// No head that is stored passes the end of the room, so that no sum can wrap.
pub fn put_heads(lengths: &[u32], heads: &mut [usize])
    ensures { Heads lengths.now heads.old heads.new }
{
    let room = heads.len();
    let mut head = 0;
    for length in lengths {
        let end = (head + *length as usize).min(room);
        heads[head..end].fill(head);
        head = end;
    }
    heads[head..].fill(head);
}

// Is row c its own head, and so the first of its thread? What stands past the room counts as 0.
pub fn is_first(heads: &[usize], c: usize) -> bool
    ensures { AnswersIsFirst heads.now c result }
{
    c == heads.get(c).copied().unwrap_or(0)
}
