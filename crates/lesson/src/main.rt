// Runs a lesson script: reads it from the file that its argument names, or from standard input, and writes the answers.
#![tactic(auto)]

use lesson_dump::layout::TOTAL;
use lesson_script::answer::Yard;
use lesson_script::read::{LIST, Script};
use std::env::FillError;
use std::fs::File;
use std::io::{Error, ErrorKind, Read};
use std::rt::Env;

// The system's number for a name that is too long (ENAMETOOLONG).
const NAME_TOO_LONG: i32 = 36;

const HELP: [&str; 12] = [
    "lesson [FILE]   run the lesson script in FILE, or the one on standard input, and write its answers\n",
    "lesson --help   write this\n\n",
    "A script has a call on each line; # starts a comment. A handle is its slot and its generation, S G; a flag is 0 or 1.\n",
    "  reset   dump   resolve   run   begin   finish [ROOM]\n",
    "  put S G FIXED ENABLED SLEEPING   flags S G FIXED ENABLED SLEEPING   retire S G   island S G   ensure S G   remove S G\n",
    "  contact EDGE S G S G   uncontact EDGE   renumber REMOVED LAST\n",
    "  joint i INDEX GENERATION S G S G   joint c MULTIBODY ORDINAL S G S G\n",
    "  unjoint i INDEX GENERATION   unjoint c MULTIBODY ORDINAL   chain MULTIBODY N S G .. S G\n",
    "  split ISLAND   schedule ISLAND   maybid ISLAND   observe ISLAND ELIGIBLE   sleep ISLAND   wake ISLAND\n",
    "Answers: 0 done, 1 nothing to do; refused: 2 over its size, 3 still linked, 4 joints full, 5 journal full, 6 no such island,\n",
    "7 no scan open, 8 output too short, 9 tables not well formed, 10 slot taken, 11 generation not allowed.\n",
    "docs/LESSON-FORMAT.md has the whole form, docs/DEMOS.md explains the lessons in demos/.\n",
];

fn run(rt: &HostRuntime, input: &mut impl Read, name: &[u8]) {
    let mut t = [0u32; TOTAL];
    let mut list = [0u32; LIST];
    let yard = Yard {
        t: &mut t,
        list: &mut list,
    };
    if let Err(error) = Script::new(rt, yard).run(input) {
        fail(rt, b"lesson: cannot read ", name, error);
    }
}

// Says on standard error what could not be done with `name`, and why.
fn fail(rt: &HostRuntime, what: &[u8], name: &[u8], error: Error) {
    let _ = rt.stderr().write_all(what);
    let _ = rt.stderr().write_all(name);
    let mut room = [0u8; lesson_text::reason::LONGEST];
    let why = lesson_text::reason::reason(error, &mut room);
    let _ = eprintln!(rt; ": {why}");
}

fn main(rt: HostRuntime) {
    // No heap: what the system takes for a name fits here, and a longer one is refused as the system refuses it.
    let mut path = [0u8; 4096];
    let length = match rt.arg(1, &mut path) {
        Ok(length) => length,
        Err(FillError::NotPresent) => {
            run(&rt, &mut rt.stdin(), b"standard input");
            return;
        }
        Err(FillError::TooLong) => {
            let error = Error::from_raw_os_error(NAME_TOO_LONG);
            fail(&rt, b"lesson: ", b"the file's name", error);
            return;
        }
    };
    match &path[..length] {
        b"--help" => {
            // One turn for each line. Each is written for itself: one that is not taken keeps no other back.
            for line in HELP {
                let _ = rt.write_all(line.as_bytes());
            }
        }
        name => match open(&rt, name) {
            Ok(mut file) => run(&rt, &mut file, name),
            Err(error) => fail(&rt, b"lesson: cannot open ", name, error),
        },
    }
}

// std's files have names in UTF-8.
fn open(rt: &HostRuntime, name: &[u8]) -> Result<File, Error> {
    let text = std::str::from_utf8(name).map_err(|_| Error::from(ErrorKind::InvalidFilename))?;
    File::open(rt, text)
}
