// What the reader expects next, and what a token does.
ghost use Rattle.grammar.specs.Promise.{AnswersTakeToken, AnswersMayEnd};

use crate::tokens::Token;

#[derive(Clone, Copy)]
pub enum State {
    // the word of a command, or `return`
    Word,
    // the address of an access, with its kind
    Address(u32),
    // the barrier of a signal, with its kind
    Barrier(u32),
    // and its count, with the barrier too
    Count(u32, u32),
    // `;`
    Close,
    // `||`, or the end
    Parting,
}

// What a token does: it doesn't fit; it leads on; it completes a row, or a thread.
// A refusal is one of four that are matched at once, which an Option would take two matches for.
#[derive(Clone, Copy)]
pub enum TokenMove {
    Refuse,
    On(State),
    Row(u32, u32, u32),
    Thread,
}

#[tactic(auto, unfolding(crate::specs::Automaton::token_moves))]
pub fn take_token(state: State, token: Token) -> TokenMove
    ensures { AnswersTakeToken state token result }
{
    match (state, token) {
        (State::Word, Token::Access(kind)) => TokenMove::On(State::Address(kind)),
        (State::Word, Token::Signal(kind)) => TokenMove::On(State::Barrier(kind)),
        (State::Word, Token::Return) => TokenMove::Thread,
        (State::Address(kind), Token::Number(address)) => TokenMove::Row(kind, address, 0),
        (State::Barrier(kind), Token::Number(barrier)) => TokenMove::On(State::Count(
            kind, barrier,
        )),
        (State::Count(kind, barrier), Token::Number(count)) => TokenMove::Row(kind, barrier, count),
        (State::Close, Token::Semi) | (State::Parting, Token::Bars) => TokenMove::On(State::Word),
        _ => TokenMove::Refuse,
    }
}

// May the text end here?
pub fn may_end(state: State) -> bool
    ensures { AnswersMayEnd state result }
{
    matches!(state, State::Parting)
}
