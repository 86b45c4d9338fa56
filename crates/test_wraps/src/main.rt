// The sleep scan around the wrap of its stamp: the tables are set up at each stamp from 4294967279 to 4294967295 and from 0 to 20,
// and run through two scans there; then one yard goes through all of them. Each line's answer is followed by the stamp. What must
// come out is tests/wraps_model.py's, a model of document 01 that shares nothing with this code.
#![tactic(auto)]

use lesson_cells::word;
use lesson_dump::layout::{STAMP, TOTAL};
use lesson_script::answer::Yard;
use lesson_script::read::{LIST, WAITING};
use lesson_text::Output;
use std::fmt;
use std::fmt::Write;

// The first stamp, and how many follow each other.
const FIRST: u32 = 4294967279;

const STAMPS: u32 = 38;

// What the program writes.
type Text<'a> = Output<'a, HostRuntime, WAITING>;

fn main(rt: HostRuntime) {
    let mut t = [0u32; TOTAL];
    let mut list = [0u32; LIST];
    let mut yard = Yard {
        t: &mut t,
        list: &mut list,
    };
    let mut out: Text<'_> = Output::new(&rt);
    // No write to an `Output` fails.
    let _ = at_each(&mut yard, &mut out);
    let _ = through_all(&mut yard, &mut out);
    out.flush();
}

// A yard of its own at each stamp.
fn at_each(yard: &mut Yard<'_>, out: &mut Text<'_>) -> fmt::Result {
    // One turn for each stamp.
    for k in 0..STAMPS {
        set_up(yard, FIRST.wrapping_add(k), out)?;
        two_scans(yard, out)?;
    }
    Ok(())
}

// One yard, and a scan at each stamp in turn.
fn through_all(yard: &mut Yard<'_>, out: &mut Text<'_>) -> fmt::Result {
    set_up(yard, FIRST, out)?;
    // One turn for each stamp.
    for _ in 0..STAMPS {
        run(yard, "begin\nobserve 0 1\nfinish\n", out)?;
    }
    Ok(())
}

// Two awake islands, 0 and 1, of one body each, in a yard whose last scan had this stamp.
fn set_up(yard: &mut Yard<'_>, stamp: u32, out: &mut Text<'_>) -> fmt::Result {
    writeln!(out, "from {stamp}")?;
    run(
        yard,
        "reset\nput 0 0 0 1 0\nput 1 0 0 1 0\nensure 0 0\nensure 1 0\n",
        out,
    )?;
    if let Some(word) = yard.t.get_mut(STAMP) {
        *word = stamp;
    }
    Ok(())
}

// Both islands are observed, the second first, and an output that is too short is lent before one that is not; then one of the
// second island's two observations is not eligible.
fn two_scans(yard: &mut Yard<'_>, out: &mut Text<'_>) -> fmt::Result {
    run(
        yard,
        "observe 0 1\nbegin\nobserve 1 1\nobserve 0 1\nobserve 2 1\nfinish 1\nfinish\nfinish\n",
        out,
    )?;
    run(
        yard,
        "begin\nobserve 1 1\nobserve 0 1\nobserve 1 0\nfinish\n",
        out,
    )
}

// Each line of a script, its answer and the stamp.
fn run(yard: &mut Yard<'_>, script: &str, out: &mut Text<'_>) -> fmt::Result {
    // One turn for each line.
    for line in script.lines() {
        yard.answer_line(line.as_bytes(), 0, out);
        writeln!(out, "stamp {}", word(yard.t, STAMP))?;
    }
    Ok(())
}
