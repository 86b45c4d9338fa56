// The words of a line, and these as numbers. One blank stands between two words.
ghost use Rattle.std.specs.Prelude.{◌≡◌, true};
ghost use Rattle.std.specs.Str.Iter.{split_has_more, split_pattern, split_text};

use crate::BadLine;
use lesson_text::digits::value_of;
use std::str::Split;

// The words of a line, all that stands between its blanks: 32 is the blank.
pub fn words_of(line: &str) -> Split<'_, char>
    ensures whole { (split_text result ≡ line.now) × (split_has_more result ≡ true) }
    ensures at_blanks { split_pattern result ≡ 32 }
{
    line.split(' ')
}

// A number of 64 bits.
pub fn read_wide(word: Option<&str>) -> Result<u64, BadLine> {
    value_of(word.ok_or(BadLine)?.as_bytes()).ok_or(BadLine)
}

// A number of 32 bits.
pub fn read_small(word: Option<&str>) -> Result<u32, BadLine> {
    u32::try_from(read_wide(word)?).map_err(|_| BadLine)
}

// The numbers of 32 bits that are left in the line, put into `list`.
pub fn read_numbers<'a>(words: Split<'_, char>, list: &'a mut [u32]) -> Result<&'a [u32], BadLine> {
    // Counted beside the list, whose words are lent: no heap, and the numbers that were read are its front.
    let mut count = 0;
    // One turn for each word that is left; each fills a word of the list.
    for word in words {
        let place = list.get_mut(count).ok_or(BadLine)?;
        *place = read_small(Some(word))?;
        count += 1;
    }
    Ok(&list[..count])
}
