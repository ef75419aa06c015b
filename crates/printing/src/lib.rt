// Bytes and numbers into a lent room, from a place on.
#![tactic(auto)]

ghost use Rattle.std.specs.Prelude.{[], ◌∷◌, ◌++◌};
ghost use Rattle.printing.specs.Figures.{figures};
ghost use Rattle.printing.specs.Putting.{Prints};

// A lent room, and where in it the next byte goes. What has no room is left out, and the place then stays at the room's end.
#[derive(Drop)]
pub struct Printer<'a> {
    pub room: &'a mut [u8],
    pub at: usize,
}

impl Printer<'_> {
    pub fn put_byte(&mut self, byte: u8)
        ensures { Prints self.old self.new (byte ∷ []) }
    {
        if self.at < self.room.len() {
            self.room[self.at] = byte;
            self.at += 1;
        }
    }

    pub fn put(&mut self, bytes: &[u8])
        ensures { Prints self.old self.new bytes.now }
    {
        for byte in bytes {
            self.put_byte(*byte);
        }
    }

    // A number in decimal: what stands before its last figure, and then that. By hand, since of a `write!` that fails nothing is promised, nor that none fails.
    pub fn put_number(&mut self, n: usize)
        ensures { Prints self.old self.new (figures n) }
    {
        if n >= 10 {
            self.put_number(n / 10);
        }
        self.put_byte(48 + (n % 10) as u8);
    }

    // A number with what stands before and after it.
    pub fn put_within(&mut self, before: &[u8], n: usize, after: &[u8])
        ensures { Prints self.old self.new (before.now ++ figures n ++ after.now) }
    {
        self.put(before);
        self.put_number(n);
        self.put(after);
    }
}
