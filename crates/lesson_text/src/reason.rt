// Why a call of the system failed, in the C library's words.
ghost use Rattle.std.specs.Prelude.{◌≡◌, ◌≤◌, length, codes};
ghost use Rattle.lesson_text.specs.Reason.{IsBefore, Lacks};

use std::io;
use std::io::{Cursor, Write};

// What std writes behind the C library's words: this, the error's number and a bracket.
const NUMBER: &str = " (os error ";

// How many bytes hold what std writes of any error of the system: the C library's words are at most 49, the rest at most 22.
pub const LONGEST: usize = 128;

// The reason for `error`, as far as `room` holds it: what std writes of it there, without the number.
pub fn reason(error: io::Error, room: &mut [u8]) -> &str
    ensures within { length result.now ≤ length room.old }
    ensures bare { Lacks (codes " (os error ") result.now }
{
    let n = write_reason(error, room);
    match std::str::from_utf8(&room[..n]) {
        Ok(text) => before(text, NUMBER),
        Err(_) => "",
    }
}

// Writes all that std says of `error`, as far as it fits, and answers how many bytes that is: no heap, so the room is lent.
fn write_reason(error: io::Error, room: &mut [u8]) -> usize
    ensures within { result ≤ length room.new }
    ensures length { length room.new ≡ length room.old }
{
    let mut cursor = Cursor::new(&mut room[..]);
    let _ = write!(cursor, "{error}");
    let n = cursor.position() as usize;
    n.min(room.len())
}

// What stands in `text` before the first `mark`, or all of it.
fn before<'a>(text: &'a str, mark: &str) -> &'a str
    ensures { IsBefore mark.now text.now result.now }
{
    match text.split_once(mark) {
        Some((words, _)) => words,
        None => text,
    }
}
