// A script from a file: read in pieces, cut into lines, each line answered.
ghost use Rattle.std.specs.Prelude.{◌≡◌};

use crate::answer::Yard;
use arrayvec::ArrayVec;
use lesson_text::Output;
use std::io;
use std::io::Read;

// How many bytes a line has at most, without its newline.
pub const LONGEST_LINE: usize = 131072;

// How many numbers a line has at most, since each has a blank before it: the length of the list that a script is lent.
pub const LIST: usize = 65536;

// How many bytes of a line are kept: one more than a line has, so that a longer one shows.
const KEPT: usize = LONGEST_LINE + 1;

// How many bytes a read brings at most, and how many bytes of output wait.
const PIECE: usize = 65536;

pub const WAITING: usize = 65536;

// A script is read to its end, or up to this many reads. Each takes a byte at the least, so 1 GiB is always read.
const MOST_PIECES: u64 = 1073741824;

// How far a script is: its tables, the answers that wait, what is read of the next line, and how many lines are answered.
#[derive(Drop)]
pub struct Script<'a, R> {
    yard: Yard<'a>,
    out: Output<'a, R, WAITING>,
    line: ArrayVec<u8, KEPT>,
    lines: u64,
}

impl<'a, R: Print + Eprint> Script<'a, R> {
    // A script over the tables of `yard`, which are reset, and whose list has room for LIST numbers.
    pub fn new(rt: &'a R, yard: Yard<'a>) -> Self
        ensures { result.lines ≡ 0 }
    {
        // Tables of another length refuse this, and each later call.
        let _ = host_calls::reset(yard.t);
        Script {
            yard,
            out: Output::new(rt),
            line: ArrayVec::new(),
            lines: 0,
        }
    }

    // Runs the script that `input` reads, and writes the answers to standard output. Where a read failed, its error, after the
    // lines before it are answered.
    pub fn run(&mut self, input: &mut impl Read) -> io::Result<()> {
        let end = self.read(input);
        // The last line may have no newline.
        if !self.line.is_empty() {
            self.end_line();
        }
        self.out.flush();
        end
    }

    fn read(&mut self, input: &mut impl Read) -> io::Result<()> {
        let mut piece = [0; PIECE];
        // One turn for each piece, of which there are at most MOST_PIECES.
        for _ in 0..MOST_PIECES {
            match input.read(&mut piece)? {
                0 => break,
                n => self.take(&piece[..n]),
            }
        }
        Ok(())
    }

    fn take(&mut self, piece: &[u8]) {
        // One turn for each line that ends in the piece, and one for what stands behind them.
        for part in piece.split_inclusive(|&b| b == b'\n') {
            match part.strip_suffix(b"\n") {
                Some(end) => {
                    self.keep(end);
                    self.end_line();
                }
                None => self.keep(part),
            }
        }
    }

    // More of the line, as far as it is kept.
    fn keep(&mut self, part: &[u8]) {
        let n = part.len().min(self.line.remaining_capacity());
        let _ = self.line.try_extend_from_slice(&part[..n]);
    }

    fn end_line(&mut self) {
        self.lines = self.lines.wrapping_add(1);
        self.yard
            .answer_line(self.line.as_slice(), self.lines, &mut self.out);
        self.line.clear();
    }
}
