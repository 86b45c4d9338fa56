// Renumber on sound tables: the last edge takes the number of the removed one.
#![tactic(auto)]

ghost use Rattle.std.specs.Prelude.{◌≡◌, ◌≢◌, ℕ, ◌+◌, ◌*◌, ◌<◌, ◌≤◌, length};
ghost use Rattle.list_in_buffer.specs.Part.{part, Put};
ghost use Rattle.list_rename.specs.Renamed.{renamed, RenameReady};
ghost use Rattle.def_state.specs.Links.{contact_edge_removed};
ghost use Rattle.table_meaning.specs.Layout.{tables, total, table_at, table_span, table_of, room};
ghost use Rattle.table_meaning.specs.Sound.{Sound};
ghost use Rattle.table_meaning.specs.Does.{Does};
ghost use Rattle.core_laws.specs.Renumbering.{Handing};
ghost use Rattle.def_kinds.specs.Answers.{Done};

use def_kinds::{Answer, NONE, Outcome, Refusal, Sizes};
use list_in_buffer::Part;
use table_meaning::{Table, word};

// In the table p: the element from, the last in use, hands its place in its list to the element to, which is in no list.
// As list_in_buffer's, of a step that only this crate makes.
pub fn rename_in(t: &mut [u32], p: Part, ends: usize, from: u32, to: u32)
    requires { (p.at + p.long ≤ length t.old) × RenameReady (part t.old p.at p.long) 0 ends from to }
    ensures { Put p.at p.long t.old t.new (renamed (part t.old p.at p.long) 0 ends from to) }
{
    let end = p.at + p.long;
    list_rename::rename(&mut t[p.at..end], 0, ends, from, to);
}

// The same in a chain table by its name.
pub fn rename_at(t: &mut [u32], z: Sizes, k: Table, from: u32, to: u32)
    requires { (length t.old ≡ total z) × RenameReady (table_of k (tables z t.old)) 0 (4 * room z k) from to }
    ensures { Put (table_at z k) (table_span z k) t.old t.new (renamed (table_of k (tables z t.old)) 0 (4 * room z k) from to) }
{
    let p = table_words::part_of(z, k);
    let b = table_words::ends_at(z, k);
    rename_in(t, p, b, from, to);
}

// The edge last, the last that is tracked, is linked, and takes the number removed, which is not: its place in the list, and its handles.
fn hand_over(t: &mut [u32], z: Sizes, removed: u32, last: u32)
    requires { Handing z removed last t.old }
    ensures { Does z (contact_edge_removed removed last) t.old Done t.new }
{
    let from = word::TOUCH * (last as usize);
    let first = table_words::handle_at(t, z, Table::Touches, from);
    let second = table_words::handle_at(t, z, Table::Touches, from + word::SLOT2);
    rename_at(t, z, Table::Contacts, last, removed);
    let to = word::TOUCH * (removed as usize);
    table_words::set_all(
        t,
        z,
        Table::Touches,
        to,
        &[
            first.slot.0,
            first.generation,
            second.slot.0,
            second.generation,
        ],
    );
    table_words::set(t, z, Table::Head, word::TRACKED, last);
}

// contact_edge_removed, on sound tables.
pub fn renumber_on(t: &mut [u32], z: Sizes, removed: u32, last: u32) -> Answer
    requires { Sound z t.old }
    ensures { Does z (contact_edge_removed removed last) t.old result t.new }
{
    let tracked = table_words::get(t, z, Table::Head, word::TRACKED);
    if removed >= tracked {
        return Ok(Outcome::Nothing);
    }
    // The last edge; last + 1 need not fit, and tracked is not 0 here.
    let last_edge = tracked - 1;
    // The tables, which C reads too, have NONE for the home of an edge that is not linked.
    let home = table_words::home(t, z, Table::Contacts, removed);
    if home != NONE {
        return Err(Refusal::StillLinked);
    }
    if last_edge != last {
        return Ok(Outcome::Nothing); // another edge is the last
    }
    if table_words::home(t, z, Table::Contacts, last) == NONE {
        table_words::set(t, z, Table::Head, word::TRACKED, last);
    } else {
        hand_over(t, z, removed, last);
    }
    Ok(Outcome::Done)
}
