// Words.
ghost use Rattle.spelling.specs.Promise.{AnswersSame};

// Are the bytes those of the word? Byte by byte: `==` calls a function, which keeps that of tokens from being compiled as one.
pub fn same(bytes: &[u8], word: &[u8]) -> bool
    ensures { AnswersSame bytes.now word.now result }
{
    if bytes.len() != word.len() {
        return false;
    }
    for (byte, own) in bytes.iter().zip(word) {
        if byte != own {
            return false;
        }
    }
    true
}
