// Contact links on sound tables: the tracked length, one link comes or goes, the journal, contact unlink; and the island of a handle.
#![tactic(auto)]

ghost use Rattle.std.specs.Prelude.{◌≡◌, ◌≢◌, ℕ, ◌+◌, ◌*◌, ◌<◌, ◌≤◌, MatchOption};
ghost use Rattle.list_in_table.specs.Rules.{none};
ghost use Rattle.def_state.specs.World.{body_island};
ghost use Rattle.def_state.specs.Links.{unlink_contact};
ghost use Rattle.table_meaning.specs.Layout.{tables, extents, contacts_in};
ghost use Rattle.table_meaning.specs.Decode.{world_of};
ghost use Rattle.table_meaning.specs.Sound.{Sound};
ghost use Rattle.table_meaning.specs.Does.{Does};
ghost use Rattle.core_laws.specs.Steps.{handle, Steps};
ghost use Rattle.core_laws.specs.Linking.{tracking, contact_of, contact_push, journalled};
ghost use Rattle.core_laws.specs.Loose.{Loosely, ContactGone};
ghost use Rattle.core_laws.specs.Lives.{Lives};

use def_kinds::{Answer, Handle, NONE, Outcome, Refusal, Sizes};
use table_meaning::{Table, word};

// The island of the body that the handle names, where it names one that is in an island.
pub fn body_island(t: &[u32], z: Sizes, h: Handle) -> Option<u32>
    requires { Sound z t.now }
    ensures { MatchOption result (body_island (world_of z t.now) (handle h.slot.0 h.generation) ≡ none) (λ i. (i ≡ body_island (world_of z t.now) (handle h.slot.0 h.generation)) × (i ≢ none)) }
{
    if !core_body::is_named(t, z, h) {
        return None;
    }
    // The tables, which C reads too, have NONE for no island.
    let i = table_words::home(t, z, Table::Members, h.slot.0);
    if i == NONE { None } else { Some(i) }
}

// The edge e, the first that is not tracked, comes into use, not linked.
pub fn grow_edge(t: &mut [u32], z: Sizes, e: u32)
    requires { Sound z t.old × (e ≡ (extents (tables z t.old)).edges) × (e < z.edges) × (e < none) }
    ensures { Steps z (tracking (e + 1)) t.old t.new }
{
    table_words::set_all(
        t,
        z,
        Table::Touches,
        word::TOUCH * (e as usize),
        &[NONE, NONE, NONE, NONE],
    );
    table_words::set_all(
        t,
        z,
        Table::Contacts,
        word::CELL * (e as usize),
        &[NONE, NONE, NONE, NONE],
    );
    table_words::set(t, z, Table::Head, word::TRACKED, e + 1);
}

// At least k edges are tracked, those taken in not linked.
pub fn grow_edges(t: &mut [u32], z: Sizes, k: u32)
    requires { Sound z t.old × (k ≤ z.edges) }
    ensures { Steps z (tracking k) t.old t.new }
{
    let tracked = table_words::get(t, z, Table::Head, word::TRACKED);
    // One turn for each edge that is taken in: at most as many as there are edges.
    for e in tracked..k {
        grow_edge(t, z, e);
    }
}

// The edge e, which is tracked and not linked, is the last contact link of the live island i, between these two bodies.
pub fn push_contact(t: &mut [u32], z: Sizes, i: u32, e: u32, first: Handle, second: Handle)
    requires { Sound z t.old × (e < (extents (tables z t.old)).edges) × ((contacts_in z (tables z t.old)).home e ≡ none) × Lives z t.old i }
    ensures { Steps z (contact_push i (contact_of e first.slot.0 first.generation second.slot.0 second.generation)) t.old t.new }
{
    table_words::push(t, z, Table::Contacts, i, e);
    table_words::set_all(
        t,
        z,
        Table::Touches,
        word::TOUCH * (e as usize),
        &[
            first.slot.0,
            first.generation,
            second.slot.0,
            second.generation,
        ],
    );
}

// The linked edge e is taken out of its island's list, whose last link takes its place.
pub fn take_contact(t: &mut [u32], z: Sizes, e: u32)
    requires { Loosely z t.old × (e < (extents (tables z t.old)).edges) × ((contacts_in z (tables z t.old)).home e ≢ none) }
    ensures { ContactGone z e t.old t.new }
{
    table_words::remove(t, z, Table::Contacts, e);
    table_words::set_all(
        t,
        z,
        Table::Touches,
        word::TOUCH * (e as usize),
        &[NONE, NONE, NONE, NONE],
    );
}

// One more entry of the journal, for which there is room.
pub fn push_entry(t: &mut [u32], z: Sizes, first: Handle, second: Handle)
    requires { Sound z t.old × ((extents (tables z t.old)).journal < z.journal) }
    ensures { Steps z (journalled (handle first.slot.0 first.generation) (handle second.slot.0 second.generation)) t.old t.new }
{
    let entries = table_words::get(t, z, Table::Head, word::JOURNAL_USED);
    table_words::set_all(
        t,
        z,
        Table::Journal,
        word::ENTRY * (entries as usize),
        &[
            first.slot.0,
            first.generation,
            second.slot.0,
            second.generation,
        ],
    );
    table_words::set(t, z, Table::Head, word::JOURNAL_USED, entries + 1);
}

// unlink_contact, on sound tables. A link from a body to itself is not journalled.
// Not one function with core_joint::unlink_joint_on: what goes in between is another list's, and so is the promise.
pub fn unlink_contact_on(t: &mut [u32], z: Sizes, e: u32) -> Answer
    requires { Sound z t.old }
    ensures { Does z (unlink_contact z e) t.old result t.new }
{
    // The tables, which C reads too, have NONE for the home of an edge that is not linked.
    if e >= table_words::get(t, z, Table::Head, word::TRACKED)
        || table_words::home(t, z, Table::Contacts, e) == NONE
    {
        return Ok(Outcome::Nothing);
    }
    let at = word::TOUCH * (e as usize);
    let first = table_words::handle_at(t, z, Table::Touches, at);
    let second = table_words::handle_at(t, z, Table::Touches, at + word::SLOT2);
    if first == second {
        take_contact(t, z, e);
        return Ok(Outcome::Done);
    }
    let entries = table_words::get(t, z, Table::Head, word::JOURNAL_USED);
    if entries >= z.journal {
        return Err(Refusal::JournalFull);
    }
    take_contact(t, z, e);
    push_entry(t, z, first, second);
    Ok(Outcome::Done)
}
