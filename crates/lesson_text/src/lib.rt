// Text to be written: `Output`. `digits` reads numbers, `reason` says why a call failed.
#![tactic(auto)]

pub mod digits;
pub mod reason;

ghost use Rattle.std.specs.Prelude.{◌≡◌, [], ◌∷◌, IsOk};
ghost use Rattle.lesson_text.specs.Added.{Added, Spelled};

use arrayvec::ArrayVec;
use std::fmt;

// From so many bytes on, text that has room is copied in one go: fewer are sooner written one by one.
const COPIED: usize = 8;

// Text on its way to standard output. It waits in fixed memory until ROOM bytes wait there, or `flush` is called. A write never
// fails: what standard output does not take is lost, and standard error says why.
#[derive(Drop)]
pub struct Output<'a, R, const ROOM: usize> {
    rt: &'a R,
    waiting: ArrayVec<u8, ROOM>,
}

impl<'a, R: Print + Eprint, const ROOM: usize> Output<'a, R, ROOM> {
    pub fn new(rt: &'a R) -> Self
        ensures { result.waiting.items ≡ [] }
    {
        Output {
            rt,
            waiting: ArrayVec::new(),
        }
    }

    // Writes what waits to standard output, or says why it cannot.
    pub fn flush(&mut self)
        ensures { self.new.waiting.items ≡ [] }
    {
        write(self.rt, self.waiting.as_slice());
        self.waiting.clear();
    }

    // The text waits behind what waits already.
    pub fn text(&mut self, s: &str)
        ensures { Added ROOM self.old.waiting.items s.now self.new.waiting.items }
    {
        self.bytes(s.as_bytes());
    }

    // The decimal digits of `n` wait behind what waits already.
    // Beside `write!`, which gives a result: std promises no success of it, and this cannot fail.
    pub fn number(&mut self, n: u64)
        ensures { Spelled ROOM self.old.waiting.items n self.new.waiting.items }
    {
        let mut digits = [0; 20];
        let k = io::decimal(n, &mut digits);
        self.bytes(&digits[..k]);
    }

    pub fn bytes(&mut self, s: &[u8])
        ensures { Added ROOM self.old.waiting.items s.now self.new.waiting.items }
    {
        if s.len() >= COPIED && s.len() <= self.waiting.remaining_capacity() {
            let _ = self.waiting.try_extend_from_slice(s);
            return;
        }
        // One turn for each byte of the text.
        for &b in s {
            self.byte(b);
        }
    }

    // With no room at all, the byte is lost.
    fn byte(&mut self, b: u8)
        ensures { Added ROOM self.old.waiting.items (b ∷ []) self.new.waiting.items }
    {
        if self.waiting.is_full() {
            self.flush();
        }
        let _ = self.waiting.try_push(b);
    }
}

impl<R: Print + Eprint, const ROOM: usize> fmt::Write for Output<'_, R, ROOM> {
    ghost write_str_gives = { λ old s new. Added ROOM old.waiting.items s new.waiting.items };

    fn write_str(&mut self, s: &str) -> fmt::Result
        ensures ok { IsOk result → Added ROOM self.old.waiting.items s.now self.new.waiting.items }
        ensures never_fails { IsOk result }
    {
        self.text(s);
        Ok(())
    }
}

// What takes text, and numbers as text: an `Output` without a formatter, which has no promise to succeed.
pub trait Text: fmt::Write {
    // The decimal digits of `n`.
    fn digits(&mut self, n: u64) -> fmt::Result;
}

impl<R: Print + Eprint, const ROOM: usize> Text for Output<'_, R, ROOM> {
    fn digits(&mut self, n: u64) -> fmt::Result
        ensures spelled { Spelled ROOM self.old.waiting.items n self.new.waiting.items }
        ensures never_fails { IsOk result }
    {
        self.number(n);
        Ok(())
    }
}

impl<W: fmt::Write> Text for fmt::Formatter<W> {
    fn digits(&mut self, n: u64) -> fmt::Result {
        write!(self, "{n}")
    }
}

fn write(rt: &(impl Print + Eprint), bytes: &[u8]) {
    if let Err(error) = rt.write_all(bytes) {
        let mut room = [0u8; reason::LONGEST];
        let why = reason::reason(error, &mut room);
        let _ = eprintln!(rt; "standard output: {why}");
    }
}
