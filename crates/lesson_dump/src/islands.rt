// The islands as text.
ghost use Rattle.std.specs.Prelude.{◌≡◌, ◌+◌, ◌*◌};

use crate::{State, labelled, layout, parts};
use lesson_text::Text;
use std::fmt;

impl State<'_> {
    fn is_live(self, island: u32) -> bool {
        self.count(layout::MEMBERS, island) != 0
    }

    pub(crate) fn islands(self, f: &mut impl Text) -> fmt::Result {
        // One turn for each island number in use.
        let live = (0..self.in_use(layout::ISLANDS_USED, layout::ISLANDS))
            .filter(|&island| self.is_live(island))
            .count();
        f.write_str("islands ")?;
        f.digits(live as u64)?;
        f.write_str("\n")?;
        // One turn for each island number in use.
        for island in 0..self.in_use(layout::ISLANDS_USED, layout::ISLANDS) {
            if self.is_live(island) {
                self.island(island, f)?;
            }
        }
        Ok(())
    }

    // An island and its three lists.
    fn island(self, island: u32, f: &mut impl Text) -> fmt::Result {
        let [count, denied, sleeping] = layout::ROWS.row(self.0, island);
        labelled(f, "island ", island)?;
        labelled(f, " count ", count)?;
        labelled(f, " denied ", denied)?;
        labelled(f, " sleeping ", sleeping)?;
        f.write_str("\n")?;
        self.list(f, "  bodies", layout::MEMBERS, island, |f, s| {
            let [generation, ..] = layout::BODIES.row(self.0, s);
            labelled(f, " ", s)?;
            parts(f, &[generation])
        })?;
        self.list(f, "  contacts", layout::CONTACTS, island, |f, e| {
            let [s1, g1, s2, g2] = layout::TOUCHES.row(self.0, e);
            labelled(f, " ", e)?;
            parts(f, &[s1, g1, s2, g2])
        })?;
        self.list(f, "  joints", layout::LINKED, island, |f, place| {
            self.joint(place, f)
        })
    }

    fn joint(self, place: u32, f: &mut impl Text) -> fmt::Result {
        let [kind, a, b, c, s1, g1, s2, g2] = layout::KEYS.row(self.0, place);
        if kind == 0 {
            f.write_str(" i")?;
            parts(f, &[a, b])?;
        } else {
            f.write_str(" c:")?;
            f.digits(joined(a, b))?;
            parts(f, &[c])?;
        }
        parts(f, &[s1, g1, s2, g2])
    }
}

// The number whose upper half is `a` and whose lower half is `b`.
fn joined(a: u32, b: u32) -> u64
    ensures { result ≡ a * 4294967296 + b }
{
    u64::from(a) * 4294967296 + u64::from(b)
}
