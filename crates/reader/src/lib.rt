// A reader stands on the text it was lent and on a place in it. What takes or gives a reader is thin: its work is done by functions of a slice and a number.
#![tactic(auto)]

ghost use Rattle.grammar.specs.Promise.{AnswersTokenAt};
ghost use Rattle.reader.specs.Promise.{StandsAt, AnswersRest};

use grammar::{Met, token_at};

#[derive(Clone, Copy)]
pub struct Reader<'a> {
    pub text: &'a [u8],
    pub at: usize,
}

// The text from a place on.
fn tail(text: &[u8], at: usize) -> &[u8]
    ensures { AnswersRest text.entry at result }
{
    &text[at.min(text.len())..]
}

impl<'a> Reader<'a> {
    // at the text's beginning
    pub fn new(text: &'a [u8]) -> Reader<'a>
        ensures { StandsAt text.entry 0 result }
    {
        Reader { text, at: 0 }
    }

    // the same text, and another place
    pub fn moved(self, at: usize) -> Reader<'a>
        ensures { StandsAt self.entry.text at result }
    {
        Reader { at, ..self }
    }

    // the token there
    pub fn token(self) -> Met
        ensures { AnswersTokenAt self.entry.text.now self.entry.at result }
    {
        token_at(self.text, self.at)
    }

    // the text from there on
    pub fn rest(self) -> &'a [u8]
        ensures { AnswersRest self.entry.text self.entry.at result }
    {
        tail(self.text, self.at)
    }
}

// The token that a reader meets at a place of a text.
pub fn token_from(text: &[u8], at: usize) -> Met
    ensures { AnswersTokenAt text.now at result }
{
    Reader::new(text).moved(at).token()
}

// The rest that a reader has at a place of a text.
pub fn rest_from(text: &[u8], at: usize) -> &[u8]
    ensures { AnswersRest text.entry at result }
{
    Reader::new(text).moved(at).rest()
}
