// The sets that a schedule writer keeps: who has a command left, and whose next command goes first.
ghost use Rattle.turns.specs.Promise.{AnswersReadyNone, AnswersLook, AnswersChoose};

use crate::choice::has_left;
use relation::at;
use sets::Set;

#[derive(Clone, Copy)]
pub struct Ready {
    pub(crate) left: Set,
    pub(crate) first: Set,
}

impl Ready {
    pub fn none() -> Self
        ensures { AnswersReadyNone result }
    {
        Ready {
            left: Set::none(),
            first: Set::none(),
        }
    }

    // Thread t is looked at, which has run n commands and of which x is the next. A list that is too short says that x doesn't go first.
    pub fn look(self, lengths: &[u32], early: &[bool], t: usize, n: u32, x: usize) -> Self
        ensures { AnswersLook self lengths.now early.now t n x result }
    {
        let left = has_left(lengths, t, n);
        let first = left & at(early, x, false);
        Ready {
            left: self.left.put(t, left),
            first: self.first.put(t, first),
        }
    }

    // The lowest thread that is not blocked and goes first, or else the lowest that is not blocked and has a command left.
    pub fn choose(self, blocked: Set) -> Option<usize>
        ensures { AnswersChoose self blocked result }
    {
        let first = self.first.lowest_but(blocked);
        first.or(self.left.lowest_but(blocked))
    }
}
