// The bodies as text.
use crate::{State, labelled, layout, parts};
use def_kinds::NONE;
use lesson_text::Text;
use std::fmt;

impl State<'_> {
    pub(crate) fn bodies(self, f: &mut impl Text) -> fmt::Result {
        // One turn for each slot in use.
        for s in 0..self.in_use(layout::SLOTS_USED, layout::SLOTS) {
            self.body(s, f)?;
        }
        Ok(())
    }

    // A slot's body, if it is live.
    fn body(self, s: u32, f: &mut impl Text) -> fmt::Result {
        let [generation, _lowest, fixed, enabled, sleeping] = layout::BODIES.row(self.0, s);
        // A word of the tables, read as it stands.
        if generation == NONE {
            return Ok(());
        }
        let [island, place, ..] = layout::MEMBERS.elements.row(self.0, s);
        labelled(f, "body ", s)?;
        labelled(f, " ", generation)?;
        labelled(f, " ", fixed)?;
        labelled(f, " ", enabled)?;
        labelled(f, " ", sleeping)?;
        labelled(f, " island ", island)?;
        labelled(f, " place ", place)?;
        f.write_str("\n")
    }

    pub(crate) fn lowest(self, f: &mut impl Text) -> fmt::Result {
        f.write_str("lowest")?;
        // One turn for each slot in use.
        for s in 0..self.in_use(layout::SLOTS_USED, layout::SLOTS) {
            let [_generation, lowest, ..] = layout::BODIES.row(self.0, s);
            if lowest != 0 {
                labelled(f, " ", s)?;
                parts(f, &[lowest])?;
            }
        }
        f.write_str("\n")
    }
}
