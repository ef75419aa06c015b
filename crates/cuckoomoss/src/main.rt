// Reads one text from standard input and prints its report, with evidence where `--evidence` asks for it.
// An error of reading or writing is told on standard error, and is never taken for an end.
#![tactic(auto)]

ghost use Rattle.std.specs.Prelude.{◌≡◌, eqb, position};
ghost use Rattle.cuckoomoss.specs.Printed.{IsPrefixLen, AnswersBeforeZero, HoldsReport, HoldsExhibits};

use asked::{Wanted, asked};
use desk::Report;
use input::{Input, fill};

mod asked; // what the arguments ask for
mod input; // a text from standard input

fn first_zero(room: &[u8]) -> Option<usize>
    ensures { result ≡ position (λ b. eqb b 0) room.now }
{
    room.iter().position(|byte| *byte == 0)
}

// How many bytes stand before the first zero. The report room begins as zeros and a report has none, nor has evidence, so that is where the report ends.
fn before_zero(room: &[u8]) -> usize
    ensures { AnswersBeforeZero room.now result }
{
    first_zero(room).unwrap_or(room.len())
}

// What is printed of a text: the first `len` of these bytes. There is no heap, so the bytes have a length beside them.
#[derive(Clone, Copy)]
struct Output<const N: usize> {
    bytes: [u8; N],
    len: usize,
    ghost fits: { IsPrefixLen len bytes },
}

// Reviews a text into a room of zeros, of the size that the text review asks for.
// Without evidence and with it are two functions: tried, and a bound may not name a const parameter, so no closure can answer an `Output<N>`.
fn report_of(text: &[u8]) -> Output<{ Report::BYTES }>
    ensures { HoldsReport text.now result.bytes result.len }
{
    let mut bytes = [0u8; Report::BYTES];
    desk::review_text(text, &mut bytes);
    let len = before_zero(&bytes);
    Output { bytes, len }
}

// The same with evidence.
fn evidence_of(text: &[u8]) -> Output<{ Report::EVIDENCE_BYTES }>
    ensures { HoldsExhibits text.now result.bytes result.len }
{
    let mut bytes = [0u8; Report::EVIDENCE_BYTES];
    desk::review_text_evidence(text, &mut bytes);
    let len = before_zero(&bytes);
    Output { bytes, len }
}

// That these bytes come out, once, no contract can say: the tests compare them.
fn put_out<const N: usize>(rt: &(impl Print + Eprint), output: Output<N>) {
    if let Err(error) = rt.write_all(&output.bytes[..output.len]) {
        let _ = eprintln!(rt; "writing the report: {error}");
    }
}

// Reads the text, and has it reviewed and printed. An error is told in a line, and the status is 0 whatever happens.
fn answer<F: Fn(&[u8])>(rt: &HostRuntime, print: F)
    requires { F.IsAlwaysCallable print }
{
    let mut text = [0u8; Input::BYTES];
    match fill(&mut rt.stdin(), &mut text) {
        Ok(n) => print(&text[..n]),
        Err(error) => {
            let _ = eprintln!(rt; "reading the text: {error}");
        }
    }
}

fn main(rt: HostRuntime) {
    match asked(&rt) {
        Wanted::Report => answer(&rt, |text| put_out(&rt, report_of(text))),
        Wanted::Evidence => answer(&rt, |text| put_out(&rt, evidence_of(text))),
        Wanted::Other => {
            let _ = eprintln!(rt; "usage: cuckoomoss [--evidence]");
        }
    }
}
