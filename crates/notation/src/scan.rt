// The two passes over a text: one judges it, and one writes the tables of a text that passed.
// They are two because the first is lent no table: so a refused text changes nothing.
ghost use Rattle.std.specs.Prelude.{◌≡◌, ◌+◌, ◌≤◌, length, set};
ghost use Rattle.tables.specs.Over.{over};
ghost use Rattle.notation.specs.Reading.{scanned_of, row_numbers, thread_lengths};
ghost use Rattle.notation.specs.Needs.{Rooms};

use grammar::{Met, State, TokenMove, may_end, take_token};
use reader::token_from;

// How many commands and threads a text has.
#[derive(Clone, Copy, PartialEq, Eq)]
pub struct Sizes {
    pub commands: usize,
    pub threads: usize,
}

// The pass that judges a text; a refusal is its place.
pub(crate) fn scan(text: &[u8]) -> Result<Sizes, usize>
    ensures { result ≡ scanned_of text.now }
{
    let mut at = 0;
    let mut state = State::Word;
    let mut sizes = Sizes {
        commands: 0,
        threads: 0,
    };
    loop {
        match token_from(text, at) {
            Met::End(end) => {
                if may_end(state) {
                    return Ok(sizes);
                }
                return Err(end);
            }
            Met::Token(token, from, next) => {
                match take_token(state, token) {
                    TokenMove::Refuse => return Err(from),
                    TokenMove::On(expected) => state = expected,
                    TokenMove::Row(_, _, _) => {
                        sizes.commands += 1;
                        state = State::Close;
                    }
                    TokenMove::Thread => {
                        sizes.threads += 1;
                        state = State::Parting;
                    }
                }
                at = next;
            }
        }
    }
}

fn put_row(commands: &mut [u32], at: usize, kind: u32, name: u32, count: u32)
    requires { at + 3 ≤ length commands.old }
    ensures { commands.new ≡ set (set (set commands.old at kind) (at + 1) name) (at + 2) count }
{
    commands[at..at + 3].copy_from_slice(&[kind, name, count]);
}

// The pass that writes the tables of a text that was judged, into rooms that hold them.
// The loop goes over tokens, of which several make a row, so it counts where rows go.
pub(crate) fn write(text: &[u8], commands: &mut [u32], lengths: &mut [u32])
    requires { Rooms text.now commands.old lengths.old }
    ensures { (commands.new ≡ over (row_numbers text.now) commands.old)
        × (lengths.new ≡ over (thread_lengths text.now) lengths.old) }
{
    let mut at = 0;
    let mut state = State::Word;
    let mut numbers = 0;
    let mut threads = 0;
    let mut length = 0;
    loop {
        let Met::Token(token, _, next) = token_from(text, at) else {
            return;
        };
        match take_token(state, token) {
            TokenMove::Refuse => return,
            TokenMove::On(expected) => state = expected,
            TokenMove::Row(kind, name, count) => {
                put_row(commands, numbers, kind, name, count);
                numbers += 3;
                length += 1;
                state = State::Close;
            }
            TokenMove::Thread => {
                lengths[threads] = length;
                threads += 1;
                length = 0;
                state = State::Parting;
            }
        }
        at = next;
    }
}
