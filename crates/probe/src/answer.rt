// The answer room: the numbers that a door tells besides the one that it answers.
ghost use Rattle.std.specs.Prelude.{◌≡◌, ◌++◌, ◌≤◌, min, length, take};
ghost use Rattle.tables.specs.Over.{over};
ghost use Rattle.probe.specs.Numbers.{answer_room, largest, told_numbers, pair_numbers};
ghost use Rattle.probe.specs.Needs.{Counted, PairsCounted};

use sheet::Sheet;
use verdicts::Told;

#[derive(Clone, Copy)]
pub(crate) struct Answer;

impl Answer {
    // an answer room has at least so many numbers
    pub(crate) const NUMBERS: usize = 36;
    // the largest number that one of its places holds
    pub(crate) const LARGEST: usize = 4294967295;
    // and each half of a number of 64 bits is below this
    pub(crate) const HALF: u64 = 4294967296;
}

// A number as an answer room holds it. Only the offset in a text of 4 GiB or more, which is refused by 13, is larger: it is told as the largest number.
pub(crate) fn capped(n: usize) -> u32
    ensures { result ≡ min n largest }
{
    n.min(Answer::LARGEST) as u32
}

// A verdict's two places, and two numbers more, in the first four places.
pub(crate) fn put_told(answer: &mut [u32], told: Told, third: usize, fourth: usize)
    requires { (4 ≤ length answer.old) × Counted told third fourth }
    ensures { answer.new ≡ over (told_numbers told third fourth) answer.old }
{
    answer[0] = told.place as u32;
    answer[1] = told.also as u32;
    answer[2] = third as u32;
    answer[3] = fourth as u32;
}

// Both numbers of each of the sheet's pairs, after the first four places, which are kept.
#[tactic(auto, unfolding(crate::specs::Numbers::answer_room))]
pub(crate) fn put_sheet(answer: &mut [u32], sheet: Sheet)
    requires { (answer_room ≤ length answer.old) × PairsCounted sheet.pairs }
    ensures { answer.new ≡ over (take 4 answer.old ++ pair_numbers sheet.pairs) answer.old }
{
    for (i, pair) in sheet.pairs.iter().enumerate() {
        answer[4 + i * 2] = pair.first as u32;
        answer[5 + i * 2] = pair.second as u32;
    }
}
