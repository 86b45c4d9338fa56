// The whole state as text. It is read as it stands, sound or not: no index is wrong, and each walk along a list ends by the
// list's count and by the table's capacity.
#![tactic(auto)]

mod bodies;
mod chains;
mod islands;
pub mod layout;

ghost use Rattle.std.specs.Prelude.{◌≤◌};

use layout::Chains;
use lesson_cells::word;
use lesson_text::Text;
use std::fmt;
use std::fmt::{Display, Formatter, Write};

// The words of the state. As text, they are a dump.
#[derive(Clone, Copy)]
pub struct State<'a>(pub &'a [u32]);

impl Display for State<'_> {
    fn fmt<W: Write>(&self, f: &mut Formatter<W>) -> fmt::Result {
        self.write(f)
    }
}

// A number behind a text.
#[inline(always)]
// Put in place, where the text's length is known.
fn labelled(f: &mut impl Text, label: &str, n: u32) -> fmt::Result {
    f.write_str(label)?;
    f.digits(u64::from(n))
}

// Numbers, each behind a colon.
#[inline(always)]
fn parts(f: &mut impl Text, numbers: &[u32]) -> fmt::Result {
    // One turn for each number.
    for &n in numbers {
        labelled(f, ":", n)?;
    }
    Ok(())
}

impl State<'_> {
    // The dump, written straight to where it goes: a formatter in between takes longer.
    pub fn write(self, f: &mut impl Text) -> fmt::Result {
        self.islands(f)?;
        self.free(f)?;
        labelled(f, "tracked ", self.word(layout::TRACKED))?;
        f.write_str("\n")?;
        self.journal(f)?;
        self.pending(f)?;
        labelled(f, "stamp ", self.word(layout::STAMP))?;
        f.write_str("\n")?;
        self.scan(f)?;
        self.bodies(f)?;
        self.lowest(f)?;
        f.write_str("end\n")
    }

    fn word(self, i: usize) -> u32 {
        word(self.0, i)
    }

    // How many entries of a table there are to look at: what this word of the head says, and no more than there is room for.
    fn in_use(self, word: usize, capacity: u32) -> u32
        ensures { result ≤ capacity }
    {
        self.word(word).min(capacity)
    }

    // A line: its label, and each element of a list as `item` writes it.
    fn list<W: Text, F: Fn(&mut W, u32) -> fmt::Result>(
        self,
        f: &mut W,
        label: &str,
        chains: Chains,
        list: u32,
        item: F,
    ) -> fmt::Result
        requires { F.IsAlwaysCallable item }
    {
        f.write_str(label)?;
        // One turn for each element: at most as many as the capacity.
        for e in self.chain(chains, list) {
            item(f, e)?;
        }
        f.write_str("\n")
    }

    fn free(self, f: &mut impl Text) -> fmt::Result {
        self.list(f, "free", layout::FREED, 0, |f, island| {
            labelled(f, " ", island)
        })
    }

    fn journal(self, f: &mut impl Text) -> fmt::Result {
        f.write_str("journal")?;
        // One turn for each entry, of which there are at most as many as there is room for.
        for entry in 0..self.in_use(layout::JOURNAL_USED, layout::JOURNAL) {
            let [s1, g1, s2, g2] = layout::ENTRIES.row(self.0, entry);
            labelled(f, " ", s1)?;
            parts(f, &[g1, s2, g2])?;
        }
        f.write_str("\n")
    }

    fn pending(self, f: &mut impl Text) -> fmt::Result {
        // A flag is a word of the head; each is read as it stands.
        if self.word(layout::IS_PENDING) == 0 {
            return f.write_str("pending none\n");
        }
        labelled(f, "pending ", self.word(layout::PENDING))?;
        f.write_str("\n")
    }

    fn scan(self, f: &mut impl Text) -> fmt::Result {
        if self.word(layout::IS_OPEN) == 0 {
            return f.write_str("scan closed\n");
        }
        self.list(f, "scan open", layout::SEEN, 0, |f, island| {
            let [fit] = layout::FIT.row(self.0, island);
            labelled(f, " ", island)?;
            parts(f, &[fit])
        })
    }
}
