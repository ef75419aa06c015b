// The next row of a thread, as a step needs it.
ghost use Rattle.std.specs.Prelude.{◌≡◌, true, false, ◌*◌, ◌<◌};
ghost use Rattle.steps.specs.Needs.{row_at, row_of_thread, KnownRow, far};

use relation::at;
use tables::Table;
use turns::allows;

// A command that enters a barrier: which, with what count, and whether it blocks.
#[derive(Clone, Copy)]
pub(crate) struct Entrant {
    pub(crate) command: usize,
    pub(crate) barrier: usize,
    pub(crate) count: u32,
    pub(crate) syncs: bool,
}

// The thread may not step, or its command enters no barrier, or enters one.
#[derive(Clone, Copy)]
pub(crate) enum Row {
    NotAllowed,
    Passes(usize),
    Enters(Entrant),
}

// Row c.
fn row_at(commands: &[u32], c: usize) -> Row
    requires { c < far * 2 }
    ensures { result ≡ row_at commands.now c }
{
    let kind = at(commands, c * 3, 0);
    let barrier = at(commands, c * 3 + 1, 0) as usize;
    if kind < Table::ARRIVE {
        return Row::Passes(c);
    }
    if Table::BARRIERS <= barrier {
        return Row::Passes(c);
    }
    Row::Enters(Entrant {
        command: c,
        barrier,
        count: at(commands, c * 3 + 2, 0),
        syncs: kind == Table::SYNC,
    })
}

// The row of thread t, whose rows begin at `first`, which has run n of them and waits for `wait`.
pub(crate) fn thread_row(
    commands: &[u32],
    lengths: &[u32],
    t: usize,
    first: usize,
    n: u32,
    wait: u32,
) -> Row
    requires { first < far }
    ensures { (result ≡ row_of_thread commands.now lengths.now t first n wait) × (KnownRow result) }
{
    if !allows(lengths, t, n, wait) {
        return Row::NotAllowed;
    }
    row_at(commands, first + n as usize)
}
