// Classes of bytes, and runs of bytes of one class.
ghost use Rattle.std.specs.Prelude.{◌≡◌, not, position};
ghost use Rattle.spelling.specs.Bytes.{of_class};
ghost use Rattle.spelling.specs.Promise.{AnswersClassOf, AnswersRunOf};

#[derive(Clone, Copy, PartialEq, Eq)]
pub enum Class {
    // a space or a newline
    Blank,
    // a lower-case letter
    Letter,
    Digit,
    Other,
}

#[tactic(auto, unfolding(crate::specs::Bytes::class_of))]
pub fn class_of(byte: u8) -> Class
    ensures { AnswersClassOf byte result }
{
    match byte {
        b' ' | b'\n' => Class::Blank,
        b'a'..=b'z' => Class::Letter,
        b'0'..=b'9' => Class::Digit,
        _ => Class::Other,
    }
}

// The first byte that is not of a class. A loop and no `position`: an edit leaves bytes out by their place,
// and of a right `position` with such a test no proof was found.
fn first_other(bytes: &[u8], class: u32) -> Option<usize>
    ensures { result ≡ position (λ b. not (of_class class b)) bytes.now }
{
    for i in 0..bytes.len() {
        let byte = bytes[i];
        if class_of(byte) as u32 != class {
            return Some(i);
        }
    }
    None
}

// How many bytes of a class the bytes begin with. The class stays a number, for any may be asked;
// a closure in its place would need a `requires`, and a public function has none.
pub fn run_of(bytes: &[u8], class: u32) -> usize
    ensures { AnswersRunOf bytes.now class result }
{
    first_other(bytes, class).unwrap_or(bytes.len())
}
