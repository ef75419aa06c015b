// The fault sheet: the first pairs that are found are kept, and later ones only raise the total.
#![tactic(auto)]

ghost use Rattle.sheet.specs.Promise.{AnswersKept, AnswersEmpty, AddsPair};

#[derive(Clone, Copy)]
pub struct Pair {
    pub first: usize,
    pub second: usize,
}

// No heap, so the pairs stand in an array of fixed length with their total beside it, which goes on where the array is full.
#[derive(Clone, Copy)]
pub struct Sheet {
    pub pairs: [Pair; Sheet::KEPT],
    pub total: usize,
}

// So many pairs of a total are kept.
#[tactic(auto, unfolding(crate::specs::Sheet::most_kept))]
pub fn kept(total: usize) -> usize
    ensures { AnswersKept total result }
{
    total.min(Sheet::KEPT)
}

impl Sheet {
    // so many pairs are kept
    pub const KEPT: usize = 16;

    #[tactic(auto, unfolding(crate::specs::Sheet::sheet_of, crate::specs::Sheet::firsts, crate::specs::Sheet::most_kept))]
    pub fn empty() -> Self
        ensures { AnswersEmpty result }
    {
        let none = Pair {
            first: 0,
            second: 0,
        };
        Sheet {
            pairs: [none; Sheet::KEPT],
            total: 0,
        }
    }

    // One pair more, by value.
    #[tactic(auto, unfolding(crate::specs::Sheet::added, crate::specs::Sheet::most_kept, crate::specs::Sheet::most_counted))]
    pub fn add(mut self, pair: Pair) -> Self
        ensures { AddsPair self pair result }
    {
        let n = self.total;
        if n < Sheet::KEPT {
            self.pairs[n] = pair;
        }
        self.total = n.saturating_add(1);
        self
    }
}

// One pair more, in place: document 01's form, first by value and then in place.
pub fn add_to(sheet: &mut Sheet, pair: Pair)
    ensures { AddsPair sheet.old pair sheet.new }
{
    *sheet = sheet.add(pair);
}
