// One line of a script, read into a command. LESSON-FORMAT.md says which lines there are.
#![tactic(auto)]

mod plain;
mod words;

ghost use Rattle.std.specs.Prelude.{◌≡◌, length, get_or};

use def_kinds::{Edge, Flags, Handle, Island, JointKey, Slot};
use plain::plain_command;
use std::str::Split;
use words::{read_numbers, read_small, read_wide, words_of};

// How long the output that `finish` lends is where the script does not say, and at most.
pub const ROOM: u32 = 4096;

#[derive(Clone, Copy)]
pub enum Command<'a> {
    Reset,
    Put(Handle, Flags),
    Retire(Handle),
    Flags(Handle, Flags),
    Island(Handle),
    Ensure(Handle),
    Remove(Handle),
    Contact(Edge, Handle, Handle),
    Uncontact(Edge),
    Renumber { removed: Edge, last: Edge },
    Joint(JointKey, Handle, Handle),
    Unjoint(JointKey),
    // The handles are given by their slots and generations in turn.
    Chain { multibody: u64, handles: &'a [u32] },
    Resolve,
    Split(Island),
    MayBid(Island),
    Schedule(Island),
    Run,
    Begin,
    Observe { island: Island, eligible: bool },
    // How many numbers the lent output has room for.
    Finish { room: u32 },
    Sleep(Island),
    Wake(Island),
    Dump,
}

// The line is none of those of the format.
#[derive(Clone, Copy, Debug, PartialEq, Eq)]
pub struct BadLine;

// Reads a line; an empty one and a comment have no command. Its numbers of 32 bits go into `list`: one of 65,536 words has room
// for those of the longest line.
// No heap: the room for the numbers of a line is lent.
pub fn parse<'a>(line: &[u8], list: &'a mut [u32]) -> Result<Option<Command<'a>>, BadLine>
    ensures empty { length line.now ≡ 0 → result ≡ Ok None }
    ensures comment { get_or line.now 0 0 ≡ 35 → result ≡ Ok None }
{
    if let [] | [b'#', ..] = line {
        return Ok(None);
    }
    let text = std::str::from_utf8(line).map_err(|_| BadLine)?;
    let mut words = words_of(text);
    let command = match words.next() {
        Some("joint") => joint(words, list)?,
        Some("unjoint") => unjoint(words)?,
        Some("chain") => chain(words, list)?,
        Some(name) => plain_command(name, read_numbers(words, list)?)?,
        None => return Err(BadLine),
    };
    Ok(Some(command))
}

// `i I G` or `c M O`, the key of a joint.
fn read_key(words: &mut Split<'_, char>) -> Result<JointKey, BadLine> {
    match words.next() {
        Some("i") => Ok(JointKey::Impulse {
            index: read_small(words.next())?,
            generation: read_small(words.next())?,
        }),
        Some("c") => Ok(JointKey::Chain {
            multibody: read_wide(words.next())?,
            ordinal: read_small(words.next())?,
        }),
        _ => Err(BadLine),
    }
}

// A key and two handles.
fn joint<'a>(mut words: Split<'_, char>, list: &'a mut [u32]) -> Result<Command<'a>, BadLine> {
    let key = read_key(&mut words)?;
    match *read_numbers(words, list)? {
        [s1, g1, s2, g2] => Ok(Command::Joint(key, handle(s1, g1), handle(s2, g2))),
        _ => Err(BadLine),
    }
}

fn unjoint<'a>(mut words: Split<'_, char>) -> Result<Command<'a>, BadLine> {
    let key = read_key(&mut words)?;
    match words.next() {
        Some(_) => Err(BadLine),
        None => Ok(Command::Unjoint(key)),
    }
}

// `M N S G .. S G`.
fn chain<'a>(mut words: Split<'_, char>, list: &'a mut [u32]) -> Result<Command<'a>, BadLine> {
    let multibody = read_wide(words.next())?;
    let count = read_small(words.next())?;
    let handles = read_numbers(words, list)?;
    if handles.len() != 2 * count as usize {
        return Err(BadLine);
    }
    Ok(Command::Chain { multibody, handles })
}

fn handle(slot: u32, generation: u32) -> Handle {
    Handle::new(Slot(slot), generation)
}
