// Numbers as they are read: decimal digits and nothing else. Zeros may stand in front.
ghost use Rattle.lesson_text.specs.Number.{ReadsAs};

// The number that the digits of `word` write; None for no digit, for any other byte, and for a number that 64 bits do not hold.
pub fn value_of(word: &[u8]) -> Option<u64>
    ensures { ReadsAs word.now result }
{
    let Ok(text) = std::str::from_utf8(word) else {
        return None;
    };
    // `parse` takes a sign in front, which is no digit.
    if text.starts_with('+') {
        return None;
    }
    text.parse().ok()
}
