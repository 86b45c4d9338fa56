// One link, one body or one number in the middle of a split, on loose tables: all well formed, but that an island may have no body yet.
#![tactic(auto)]

ghost use Rattle.std.specs.Prelude.{◌≡◌, ◌≢◌, ℕ, ◌≤◌, ◌<◌, length, MatchOption};
ghost use Rattle.list_in_table.specs.Rules.{none};
ghost use Rattle.table_meaning.specs.Layout.{tables, total, extents, freed_in};
ghost use Rattle.core_laws.specs.Steps.{handle};
ghost use Rattle.core_laws.specs.Loose.{Loosely};
ghost use Rattle.split_move.specs.Shift.{node_at, ContactMoved, JointMoved, BodyMoved, ContactGoes, JointGoes, BodyGoes, NumberTaken};

use def_kinds::{Handle, NONE, Sizes, Slot};
use table_meaning::{Table, word};

// node_of: the place of the body that the handle names among the bodies of the island i, where it is a member of i. NONE is a word of the tables (the C interface).
pub fn node_at(t: &[u32], z: Sizes, i: u32, h: Handle) -> Option<u32>
    requires { (length t.now ≡ total z) × ((extents (tables z t.now)).slots ≤ z.slots) }
    ensures { MatchOption result (node_at z (tables z t.now) i (handle h.slot.0 h.generation) ≡ none) (λ p. (p ≡ node_at z (tables z t.now) i (handle h.slot.0 h.generation)) × (p ≢ none)) }
{
    let Handle {
        slot: Slot(s),
        generation,
    } = h;
    let in_use = table_words::get(t, z, Table::Head, word::SLOTS_USED);
    if s >= in_use || generation == NONE {
        return None;
    }
    let live = table_words::get(t, z, Table::Slots, word::SLOT * (s as usize));
    let home = table_words::home(t, z, Table::Members, s);
    if live != generation || home != i {
        return None;
    }
    let place = table_words::get(
        t,
        z,
        Table::Members,
        word::CELL * (s as usize) + word::PLACE,
    );
    if place == NONE { None } else { Some(place) }
}

// The three moves differ in what they promise of the state (a contact link, a joint link, a body), so each is a function of its own.
// The contact link e goes to the end of the list of the island to.
pub fn move_contact(t: &mut [u32], z: Sizes, e: u32, to: u32)
    requires { ContactGoes z to t.old e }
    ensures { ContactMoved z to t.old t.new e }
{
    table_words::remove(t, z, Table::Contacts, e);
    table_words::push(t, z, Table::Contacts, to, e);
}

// The joint link at the place p of the key table, which it keeps, goes to the end of the list of the island to.
pub fn move_joint(t: &mut [u32], z: Sizes, p: u32, to: u32)
    requires { JointGoes z to t.old p }
    ensures { JointMoved z to t.old t.new p }
{
    table_words::remove(t, z, Table::Joints, p);
    table_words::push(t, z, Table::Joints, to, p);
}

// The body in slot s goes to the end of the list of the island to.
pub fn move_body(t: &mut [u32], z: Sizes, s: u32, to: u32)
    requires { BodyGoes z to t.old s }
    ensures { BodyMoved z to t.old t.new s }
{
    table_words::remove(t, z, Table::Members, s);
    table_words::push(t, z, Table::Members, to, s);
}

// A number for a new island: the last freed, or the next unused. Its sleeping word is set: the word of the island that is split, handed on as it stands.
pub fn take_number(t: &mut [u32], z: Sizes, asleep: u32) -> u32
    requires { Loosely z t.old × (asleep ≤ 1) × ((freed_in z (tables z t.old)).count 0 ≡ 0 → ((extents (tables z t.old)).islands < z.islands) × ((extents (tables z t.old)).islands < none)) }
    ensures { NumberTaken z asleep result t.old t.new }
{
    core_ensure::make_ready(t, z);
    let i = table_words::last(t, z, Table::Freed, 0);
    table_words::remove(t, z, Table::Freed, i);
    table_words::set(
        t,
        z,
        Table::Rows,
        word::ROW * (i as usize) + word::ASLEEP,
        asleep,
    );
    i
}
