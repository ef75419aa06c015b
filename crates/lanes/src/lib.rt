// The lanes of a warp as words of 32 bits: bit t of each belongs to lane t.
#![tactic(auto)]

ghost use Rattle.std.specs.Prelude.{◌≡◌, min};
ghost use Rattle.lanes.specs.Words.{except, token_number, waking};
ghost use Rattle.lanes.specs.Promise.{AnswersWake, AnswersBreakOff, AnswersGiveUp, AnswersLeaveOut, AnswersOnly, AnswersHighest, AnswersAllOf};

// The types of tokens.
#[derive(Clone, Copy, PartialEq, Eq)]
pub enum TokenKind {
    Sync,
    Div,
    Brk,
    Call,
}

impl TokenKind {
    // The type of a number. A number past the types is a call.
    fn of(number: u32) -> Self
        ensures { token_number result ≡ min number 3 }
    {
        match number {
            0 => TokenKind::Sync,
            1 => TokenKind::Div,
            2 => TokenKind::Brk,
            _ => TokenKind::Call,
        }
    }
}

// The bits of a that are not in b.
fn without(a: u32, b: u32) -> u32
    ensures { result ≡ except a b }
{
    a & !b
}

// The active mask and the disable states: the lanes that broke off a loop, and those that returned.
#[derive(Clone, Copy)]
pub struct Lanes {
    pub active: u32,
    pub broke: u32,
    pub returned: u32,
}

impl Lanes {
    // Those of a mask are active that are not disabled.
    fn awake(self, mask: u32) -> Self
        ensures { result ≡ waking self mask }
    {
        Lanes {
            active: without(without(mask, self.broke), self.returned),
            ..self
        }
    }

    // A token comes off the stack. A number past the types is a call. The type stays a number: by `AnswersWake` and `wake_one` any is answered for.
    pub fn wake(self, kind: u32, mask: u32) -> Self
        ensures { AnswersWake self kind mask result }
    {
        let able = match TokenKind::of(kind) {
            TokenKind::Sync | TokenKind::Div => self,
            TokenKind::Brk => Lanes {
                broke: without(self.broke, mask),
                ..self
            },
            TokenKind::Call => Lanes {
                returned: without(self.returned, mask),
                ..self
            },
        };
        able.awake(mask)
    }

    // The active lanes break off.
    pub fn break_off(self) -> Self
        ensures { AnswersBreakOff self result }
    {
        Lanes {
            active: 0,
            broke: self.broke | self.active,
            ..self
        }
    }

    // The active lanes return.
    pub fn give_up(self) -> Self
        ensures { AnswersGiveUp self result }
    {
        Lanes {
            active: 0,
            returned: self.returned | self.active,
            ..self
        }
    }

    // The active lanes but those in a mask.
    pub fn leave_out(self, mask: u32) -> Self
        ensures { AnswersLeaveOut self mask result }
    {
        Lanes {
            active: without(self.active, mask),
            ..self
        }
    }

    // These lanes are active.
    pub fn only(self, mask: u32) -> Self
        ensures { AnswersOnly self mask result }
    {
        Lanes {
            active: mask,
            ..self
        }
    }
}

// The highest lane of a mask. No Option: for an empty mask `AnswersHighest` says 0, as for lane 0.
pub fn highest(mask: u32) -> u32
    ensures { AnswersHighest mask result }
{
    if mask == 0 {
        return 0;
    }
    31 ^ mask.leading_zeros()
}

// The mask of the first n lanes; there are 32.
pub fn all_of(n: u32) -> u32
    ensures { AnswersAllOf n result }
{
    if n < 32 {
        return (1u32 << n) - 1;
    }
    u32::MAX
}
