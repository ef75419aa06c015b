// The report of a conclusion: its lines.
#![tactic(auto)]

ghost use Rattle.printing.specs.Putting.{Prints};
ghost use Rattle.report.specs.Report.{two_numbers, verdict_line, pair_lines, report};
ghost use Rattle.sheet.specs.Sheet.{kept_pairs};

use printing::Printer;
use sheet::{Sheet, kept};
use verdicts::Told;

// A verdict or a refusal with its place, and the fault sheet.
#[derive(Clone, Copy)]
pub struct Conclusion {
    pub told: Told,
    pub sheet: Sheet,
}

// Two numbers, a space between them, and the line's end.
fn put_two(out: &mut Printer<'_>, first: usize, second: usize)
    ensures { Prints out.old out.new (two_numbers first second) }
{
    out.put_within(b"", first, b" ");
    out.put_within(b"", second, b"\n");
}

fn put_verdict(out: &mut Printer<'_>, told: Told)
    ensures { Prints out.old out.new (verdict_line told) }
{
    out.put_within(b"verdict ", told.number as usize, b" place ");
    put_two(out, told.place, told.also);
}

// One line a kept pair.
fn put_pairs(out: &mut Printer<'_>, sheet: Sheet)
    ensures { Prints out.old out.new (pair_lines (kept_pairs sheet)) }
{
    for pair in &sheet.pairs[..kept(sheet.total)] {
        put_two(out, pair.first, pair.second);
    }
}

// The whole report.
pub fn print(out: &mut Printer<'_>, concluded: Conclusion)
    ensures { Prints out.old out.new (report concluded) }
{
    put_verdict(out, concluded.told);
    out.put_within(b"total ", concluded.sheet.total, b"\n");
    put_pairs(out, concluded.sheet);
}
