// One line of a script: the call that it names, and the line that answers it.
use crate::read::LONGEST_LINE;
use def_kinds::{Island, NONE, Refusal};
use lesson_command::{BadLine, Command, parse};
use lesson_dump::State;
use lesson_text::{Output, Text};
use std::fmt;
use std::fmt::Write;

// The words of the state, and room for the numbers of a line.
#[derive(Drop)]
pub struct Yard<'a> {
    pub t: &'a mut [u32],
    pub list: &'a mut [u32],
}

impl Yard<'_> {
    // Answers the line `line`, which is the `number`th. No write to an `Output` fails.
    pub fn answer_line<R: Print + Eprint, const ROOM: usize>(
        &mut self,
        line: &[u8],
        number: u64,
        out: &mut Output<'_, R, ROOM>,
    ) {
        let _ = self.write_answer(line, number, out);
    }

    fn write_answer(&mut self, line: &[u8], number: u64, out: &mut impl Text) -> fmt::Result {
        if line.len() > LONGEST_LINE {
            return write_bad_line(number, out);
        }
        let command = match parse(line, self.list) {
            Ok(Some(command)) => command,
            Ok(None) => return Ok(()),
            Err(BadLine) => return write_bad_line(number, out),
        };
        // The one place that says which call a line is.
        let t = &mut *self.t;
        let answer = match command {
            Command::Reset => host_calls::reset(t),
            Command::Put(h, flags) => host_calls::put(t, h, flags),
            Command::Retire(h) => host_calls::retire(t, h),
            Command::Flags(h, flags) => host_calls::flags(t, h, flags),
            Command::Island(h) => return write_island(host_calls::island(t, h), out),
            Command::Ensure(h) => host_calls::ensure(t, h),
            Command::Remove(h) => host_calls::remove(t, h),
            Command::Contact(e, first, second) => host_calls::contact(t, e, first, second),
            Command::Uncontact(e) => host_calls::uncontact(t, e),
            Command::Renumber { removed, last } => host_calls::renumber(t, removed, last),
            Command::Joint(key, first, second) => host_calls::joint(t, key, first, second),
            Command::Unjoint(key) => host_calls::unjoint(t, key),
            Command::Chain { multibody, handles } => host_calls::chain(t, multibody, handles),
            Command::Resolve => host_calls::resolve(t),
            Command::Split(island) => host_calls::split(t, island),
            Command::MayBid(island) => return write_bid(host_calls::may_bid(t, island), out),
            Command::Schedule(island) => host_calls::schedule(t, island),
            Command::Run => host_calls::run(t),
            Command::Begin => host_calls::begin(t),
            Command::Observe { island, eligible } => host_calls::observe(t, island, eligible),
            // The output that is lent is the front of the list: the line's numbers are read by now.
            Command::Finish { room } => {
                return match self.list.get_mut(..room as usize) {
                    Some(output) => finish(t, output, out),
                    None => write_bad_line(number, out),
                };
            }
            Command::Sleep(island) => host_calls::sleep(t, island),
            Command::Wake(island) => host_calls::wake(t, island),
            Command::Dump => return State(t).write(out),
        };
        writeln!(out, "{}", def_kinds::number(answer))
    }
}

fn write_bad_line(number: u64, out: &mut impl Text) -> fmt::Result {
    out.write_str("bad line ")?;
    out.digits(number)?;
    out.write_str("\n")
}

// The number of a question's answer, which is 0 where it is not refused, and the body's island or NONE.
fn write_island(asked: Result<Option<Island>, Refusal>, out: &mut impl Write) -> fmt::Result {
    match asked {
        Ok(Some(island)) => writeln!(out, "0 {}", island.0),
        Ok(None) => writeln!(out, "0 {NONE}"),
        Err(refusal) => writeln!(out, "{} {NONE}", u32::from(refusal)),
    }
}

fn write_bid(asked: Result<bool, Refusal>, out: &mut impl Write) -> fmt::Result {
    match asked {
        Ok(yes) => writeln!(out, "0 {}", u8::from(yes)),
        Err(refusal) => writeln!(out, "{} 0", u32::from(refusal)),
    }
}

// The answer, the list's length, and the list.
fn finish(t: &mut [u32], list: &mut [u32], out: &mut impl Write) -> fmt::Result {
    match host_calls::finish(t, list) {
        Ok(length) => write_list(list, length, out),
        Err(refusal) => writeln!(out, "{} 0", u32::from(refusal)),
    }
}

fn write_list(list: &[u32], length: u32, out: &mut impl Write) -> fmt::Result {
    write!(out, "0 {length}")?;
    // One turn for each number of the list.
    for island in list.iter().take(length as usize) {
        write!(out, " {island}")?;
    }
    writeln!(out)
}
