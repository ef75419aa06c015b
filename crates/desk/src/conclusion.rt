// What the review of a text tells: the text read, a schedule written, and that judged.
ghost use Rattle.std.specs.Prelude.{◌≤◌};
ghost use Rattle.desk.specs.Needs.{FullRooms, JudgesTables, Concludes};

use notation::{read, told};
use replay::write_schedule;
use report::Conclusion;
use review::review;
use sheet::Sheet;
use tables::{Table, Tables};

// What is concluded from a text, and how many numbers its two tables have: 0 where it is refused, since an empty table needs no case.
#[derive(Clone, Copy)]
pub(crate) struct Concluded {
    pub(crate) conclusion: Conclusion,
    pub(crate) numbers: usize,
    pub(crate) threads: usize,
}

// The sizes of full rooms.
#[derive(Clone, Copy)]
pub(crate) struct Full;

impl Full {
    pub(crate) const NUMBERS: usize = Table::ROWS * 3;

    // by hand: a constant takes no call, such as div_ceil
    pub(crate) const WORDS: usize = Table::ROWS * ((Table::ROWS + 31) / 32);
}

// Two tables judged by the schedule that the writer writes. Where it refuses them, so does the review.
fn judge_tables(tables: Tables, relation: &mut [u32], generations: &mut [u32]) -> Conclusion
    requires { FullRooms relation.old generations.old }
    ensures { JudgesTables tables.entry.commands.now tables.entry.lengths.now relation.old generations.old
        result relation.new generations.new }
{
    let mut schedule = [0u32; Table::ROWS];
    let steps = write_schedule(tables, &mut schedule).unwrap_or(0);
    let found = review(tables, &schedule[..steps], relation, generations);
    Conclusion {
        told: found.verdict.told(),
        sheet: found.sheet,
    }
}

// The rooms of a review, all of them full ones.
#[derive(Drop)]
pub(crate) struct ReviewRooms {
    pub(crate) commands: [u32; Full::NUMBERS],
    pub(crate) lengths: [u32; Table::THREADS],
    pub(crate) relation: [u32; Full::WORDS],
    pub(crate) generations: [u32; Table::ROWS],
}

impl ReviewRooms {
    // Inlined, or the rooms would be copied.
    #[inline(always)]
    pub(crate) fn full() -> Self {
        ReviewRooms {
            commands: [0; Full::NUMBERS],
            lengths: [0; Table::THREADS],
            relation: [0; Full::WORDS],
            generations: [0; Table::ROWS],
        }
    }

    // A text read into tables, and these judged; or what the reading refused. Inlined, or the stack would be more than include/desk.h says.
    #[inline(always)]
    pub(crate) fn conclude(&mut self, text: &[u8]) -> Concluded
        ensures concludes { Concludes text.now self.old.relation self.old.generations
            result self.new.commands self.new.lengths self.new.relation self.new.generations }
        ensures fits { (result.numbers ≤ Full.NUMBERS) × (result.threads ≤ Table.THREADS) }
    {
        let reading = read(text, &mut self.commands, &mut self.lengths);
        let Ok(sizes) = reading else {
            return Concluded {
                conclusion: Conclusion {
                    told: told(reading),
                    sheet: Sheet::empty(),
                },
                numbers: 0,
                threads: 0,
            };
        };
        let numbers = sizes.commands * 3;
        let threads = sizes.threads;
        Concluded {
            conclusion: judge_tables(
                Tables {
                    commands: &self.commands[..numbers],
                    lengths: &self.lengths[..threads],
                },
                &mut self.relation,
                &mut self.generations,
            ),
            numbers,
            threads,
        }
    }
}
