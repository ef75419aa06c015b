// The tokens of a text: a longest run of lower-case letters, a longest run of digits, `;`, `||`.
ghost use Rattle.std.specs.Prelude.{◌≡◌, ◌<◌, length};
ghost use Rattle.grammar.specs.Tokens.{word_of, number_of, mark_of, piece_of};
ghost use Rattle.grammar.specs.Promise.{AnswersTokenAt};

use spelling::{Class, class_of, read_number, run_of, same};
use tables::Table;

// A kind is a number, for it is one of a lent table's, and `take_token` answers for any.
#[derive(Clone, Copy)]
pub enum Token {
    // `read` and `write`, by the kind of their row
    Access(u32),
    // `arrive` and `sync`
    Signal(u32),
    Return,
    Number(u32),
    Semi,
    Bars,
    // no token of the notation: another word, a run of digits that is no number, another byte
    Misfit,
}

// A token, and how many bytes it takes.
#[derive(Clone, Copy)]
pub(crate) struct Piece {
    pub(crate) token: Token,
    pub(crate) size: usize,
}

// What stands at a place after its blanks: the end, or a token with its first byte's place and the place past it.
// An end has a place, and is no error: neither an Option nor a Result says so.
#[derive(Clone, Copy)]
pub enum Met {
    End(usize),
    Token(Token, usize, usize),
}

#[tactic(auto, unfolding(crate::specs::Tokens::word_of))]
fn word(bytes: &[u8]) -> Token
    ensures { result ≡ word_of bytes.now }
{
    if same(bytes, b"read") {
        return Token::Access(Table::READ);
    }
    if same(bytes, b"write") {
        return Token::Access(Table::WRITE);
    }
    if same(bytes, b"arrive") {
        return Token::Signal(Table::ARRIVE);
    }
    if same(bytes, b"sync") {
        return Token::Signal(Table::SYNC);
    }
    if same(bytes, b"return") {
        return Token::Return;
    }
    Token::Misfit
}

fn number(bytes: &[u8]) -> Token
    ensures { result ≡ number_of bytes.now }
{
    read_number(bytes).map_or(Token::Misfit, Token::Number)
}

// A mark, or one byte that is none.
#[tactic(auto, unfolding(crate::specs::Tokens::mark_of))]
fn mark(bytes: &[u8]) -> Piece
    requires { 0 < length bytes.now }
    ensures { result ≡ mark_of bytes.now }
{
    let (token, size) = match bytes {
        [b';', ..] => (Token::Semi, 1),
        [b'|', b'|', ..] => (Token::Bars, 2),
        _ => (Token::Misfit, 1),
    };
    Piece { token, size }
}

// The token that the bytes begin with. The run is looked for in each arm: a mark has none, and where the class is known the search is quicker.
fn first_token(bytes: &[u8]) -> Piece
    requires { 0 < length bytes.now }
    ensures { result ≡ piece_of bytes.now }
{
    let class = class_of(bytes[0]);
    match class {
        Class::Letter => {
            let run = &bytes[..run_of(bytes, class as u32)];
            Piece {
                token: word(run),
                size: run.len(),
            }
        }
        Class::Digit => {
            let run = &bytes[..run_of(bytes, class as u32)];
            Piece {
                token: number(run),
                size: run.len(),
            }
        }
        _ => mark(bytes),
    }
}

// The token at a place; past the text it is the end there.
pub fn token_at(text: &[u8], at: usize) -> Met
    ensures { AnswersTokenAt text.now at result }
{
    if text.len() < at {
        return Met::End(at);
    }
    let from = at + run_of(&text[at..], Class::Blank as u32);
    if from == text.len() {
        return Met::End(from);
    }
    let piece = first_token(&text[from..]);
    let token = piece.token;
    Met::Token(token, from, from + piece.size)
}
