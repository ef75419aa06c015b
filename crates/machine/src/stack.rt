// The stack in its room: numbers below 256 are rows, the next 256 are whiles that have begun, all others are tokens.
ghost use Rattle.std.specs.Prelude.{◌≡◌, ◌∷◌, ◌+◌, ◌≤◌, ◌<◌, length};
ghost use Rattle.kernels.specs.Limits.{most_statements};
ghost use Rattle.kernels.specs.Rows.{statements};
ghost use Rattle.machine.specs.Entries.{entry_of, from_token, list_over};
ghost use Rattle.machine.specs.Needs.{meant, Small, entries, Holds};

use lanes::Lanes;

#[derive(Clone, Copy)]
pub struct Stack;

impl Stack {
    // a stack has at most so many statements and tokens
    pub const ENTRIES: usize = 256;
    // and its room so many numbers
    pub const ROOM: usize = 1024;
    // from here on, whiles that have begun: a room of numbers is what `step_warp` is lent, of a fixed size
    pub const AGAIN: u64 = 256;
    // from here on, tokens
    pub const TOKENS: u64 = 512;
}

// How high the stack stands in its room, and the lanes.
#[derive(Clone, Copy)]
pub struct Stand {
    pub height: usize,
    pub lanes: Lanes,
}

// An entry of the stack: the statement of a row, a while of a row that has begun, or a token with its mask.
#[derive(Clone, Copy)]
pub(crate) enum StackEntry {
    Row(usize),
    Again(usize),
    Token(u32, u32),
}

impl StackEntry {
    // The entry that a number stands for.
    pub(crate) fn of(number: u64) -> Self
        ensures { (meant result ≡ entry_of number) × Small result }
    {
        if number < Stack::AGAIN {
            return StackEntry::Row(number as usize);
        }
        if number < Stack::TOKENS {
            return StackEntry::Again((number - Stack::AGAIN) as usize);
        }
        let rest = number - Stack::TOKENS;
        StackEntry::Token((rest % 4) as u32, (rest / 4 % 4294967296) as u32)
    }

    // A number that stands for the entry.
    fn number(self) -> u64
        requires { Small self }
        ensures { entry_of result ≡ meant self }
    {
        match self {
            StackEntry::Row(i) => i as u64,
            StackEntry::Again(i) => Stack::AGAIN + i as u64,
            StackEntry::Token(kind, mask) => Stack::TOKENS + 4 * mask as u64 + kind as u64,
        }
    }
}

// The stack in a lent room, and how high it stands there.
#[derive(Drop)]
pub(crate) struct Tower<'a> {
    pub(crate) room: &'a mut [u64],
    pub(crate) height: usize,
}

impl Tower<'_> {
    // An entry goes onto the stack.
    pub(crate) fn put(&mut self, entry: StackEntry)
        requires { (self.old.height < length self.old.room.now) × Small entry }
        ensures { Holds self.old self.new 1 (meant entry ∷ entries self.old) }
    {
        self.room[self.height] = entry.number();
        self.height += 1;
    }

    // The rows of list b, the last first, so that the first lies on top.
    pub(crate) fn push_list(&mut self, code: &[u32], b: u32)
        requires { (self.old.height + 256 ≤ length self.old.room.now) × (statements code.now ≤ most_statements) }
        ensures { Holds self.old self.new 256 (list_over code.now b (entries self.old)) }
    {
        for i in (0..code.len() / 5).rev() {
            if code[5 * i] == b {
                // `put` here, or a height of the loop's own, makes a step on a full table take 1.5 times as long (bench/warps.c); a row's number is the row
                self.room[self.height] = i as u64;
                self.height += 1;
            }
        }
    }

    // Without the statements above the topmost token.
    pub(crate) fn drop_rows(&mut self)
        requires { self.old.height ≤ length self.old.room.now }
        ensures { Holds self.old self.new 0 (from_token (entries self.old)) }
    {
        for i in (0..self.height).rev() {
            if self.room[i] >= Stack::TOKENS {
                self.height = i + 1;
                return;
            }
        }
        self.height = 0;
    }
}
