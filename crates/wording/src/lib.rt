// The lines of evidence: what a schedule shows, in words, and the schedule.
#![tactic(auto)]

ghost use Rattle.std.specs.Prelude.{◌≡◌};
ghost use Rattle.printing.specs.Putting.{Prints};
ghost use Rattle.wording.specs.declared.Shown.TheVariants.{First, Generation};
ghost use Rattle.wording.specs.Lines.{shown_line, parting_byte, steps_line};

use printing::Printer;

// One command before another; another generation than the one offered; or an end in 7, 8 or 9.
#[derive(Clone, Copy)]
pub enum Shown {
    First(usize, usize),
    Generation(usize, u32, u32),
    Mismatch(usize),
    Deadlock(usize),
    LeftSet(usize),
}

// One command before another.
pub fn put_first(out: &mut Printer<'_>, x: usize, y: usize)
    ensures { Prints out.old out.new (shown_line (First x y)) }
{
    out.put_within(b"command ", x, b" comes before command ");
    out.put_within(b"", y, b"\n");
}

// Another generation than the one offered.
fn put_generation(out: &mut Printer<'_>, c: usize, g: u32, h: u32)
    ensures { Prints out.old out.new (shown_line (Generation c g h)) }
{
    out.put_within(b"command ", c, b" gets generation ");
    out.put_within(b"", g as usize, b", not ");
    out.put_within(b"", h as usize, b"\n");
}

// What a schedule shows, in words.
pub fn put_shown(out: &mut Printer<'_>, shown: Shown)
    ensures { Prints out.old out.new (shown_line shown) }
{
    match shown {
        Shown::First(x, y) => put_first(out, x, y),
        Shown::Generation(c, g, h) => put_generation(out, c, g, h),
        Shown::Mismatch(c) => out.put_within(
            b"command ",
            c,
            b" comes to a barrier that expects another count\n",
        ),
        Shown::Deadlock(c) => out.put_within(b"deadlock, a thread waits at command ", c, b"\n"),
        Shown::LeftSet(b) => out.put_within(b"barrier ", b, b" still waits for more\n"),
    }
}

// What stands after a thread's number, where so many are left.
fn parted_by(left: usize) -> u8
    ensures { result ≡ parting_byte left }
{
    if left == 0 { b'\n' } else { b' ' }
}

// A schedule, thread by thread.
pub fn put_steps(out: &mut Printer<'_>, schedule: &[u32])
    ensures { Prints out.old out.new (steps_line schedule.now) }
{
    for (i, t) in schedule.iter().enumerate() {
        out.put_number(*t as usize);
        out.put_byte(parted_by(schedule.len() - (i + 1)));
    }
}
