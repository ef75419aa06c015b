// A set of threads: bit t mod 64 of word ⌊t/64⌋ is set exactly when thread t is in it. No set has a thread past the limit.
#![tactic(auto)]

ghost use Rattle.std.specs.Prelude.{◌≡◌, ◌<◌};
ghost use Rattle.sets.specs.Words.{put_bit};
ghost use Rattle.sets.specs.Promise.{AnswersSetNone, AnswersHas, AnswersPut, AnswersLowestBut};

use tables::Table;

#[derive(Clone, Copy)]
pub struct Set {
    pub(crate) words: [u64; Set::WORDS],
}

// The word with bit k set, or not.
fn put_bit(word: u64, k: u64, on: bool) -> u64
    requires { k < 64 }
    ensures { result ≡ put_bit word k on }
{
    let bit = 1u64 << k;
    if on { word | bit } else { word & !bit }
}

impl Set {
    // so many words of 64 bits
    pub const WORDS: usize = Table::THREADS / 64;

    pub fn none() -> Self
        ensures { AnswersSetNone result }
    {
        Set {
            words: [0u64; Set::WORDS],
        }
    }

    // Is thread t in it?
    pub fn has(self, t: usize) -> bool
        ensures { AnswersHas self t result }
    {
        if Table::THREADS <= t {
            return false;
        }
        let k = (t % 64) as u64;
        (self.words[t / 64] >> k) % 2 == 1
    }

    // Thread t is in it, or not.
    pub fn put(mut self, t: usize, on: bool) -> Self
        ensures { AnswersPut self t on result }
    {
        if Table::THREADS <= t {
            return self;
        }
        let word = self.words[t / 64];
        self.words[t / 64] = put_bit(word, (t % 64) as u64, on);
        self
    }

    // The lowest thread that is in it and not in another.
    pub fn lowest_but(self, other: Set) -> Option<usize>
        ensures { AnswersLowestBut self other result }
    {
        for i in 0..Set::WORDS {
            let left = self.words[i] & !other.words[i];
            if left != 0 {
                return Some(i * 64 + left.trailing_zeros() as usize);
            }
        }
        None
    }
}
