// Remove and retire on sound tables, with the links that an emptied island drops; and a body's island.
#![tactic(auto)]

ghost use Rattle.std.specs.Prelude.{◌≡◌, ◌+◌, ◌*◌, ◌<◌};
ghost use Rattle.def_state.specs.Bodies.{retire, island};
ghost use Rattle.def_state.specs.Membership.{remove};
ghost use Rattle.table_meaning.specs.Layout.{tables, extents, members_in, contacts_in, joints_in};
ghost use Rattle.table_meaning.specs.Decode.{world_of};
ghost use Rattle.table_meaning.specs.Sound.{Sound};
ghost use Rattle.table_meaning.specs.Does.{Does};
ghost use Rattle.core_laws.specs.Steps.{handle, leave, leave_last};
ghost use Rattle.core_laws.specs.Drops.{Dropped, Cleared, JointDropped, JointsCleared};
ghost use Rattle.core_laws.specs.Leaves.{freeing, BodyLeft, Removes};
ghost use Rattle.core_remove.specs.Housed.{Housed};

use def_kinds::{Answer, Handle, Island, NONE, Outcome, Refusal, Sizes};
use table_meaning::{Table, word};

// The last contact link of the island i goes.
// Not core_contact::take_contact, whose promise is about tables in the middle of a split: here the last link goes, and the list is one shorter.
fn drop_contact(t: &mut [u32], z: Sizes, i: u32)
    requires { Sound z t.old × (i < (extents (tables z t.old)).islands) × (0 < (contacts_in z (tables z t.old)).count i) }
    ensures { Dropped z i t.old t.new }
{
    let e = table_words::last(t, z, Table::Contacts, i);
    table_words::remove(t, z, Table::Contacts, e);
    table_words::set_all(
        t,
        z,
        Table::Touches,
        word::TOUCH * (e as usize),
        &[NONE, NONE, NONE, NONE],
    );
}

// All contact links of the island i go.
pub fn drop_contacts(t: &mut [u32], z: Sizes, i: u32)
    requires { Sound z t.old × (i < (extents (tables z t.old)).islands) }
    ensures { Cleared z i t.old t.new }
{
    let links = table_words::count(t, z, Table::Contacts, i);
    // One turn for each contact link of the island: at most as many as there are edges.
    for _ in 0..links {
        drop_contact(t, z, i);
    }
}

// The last joint link of the island i goes, and its place of the key table is free.
// Not one function with drop_contact, nor drop_joints with drop_contacts: a joint's place is freed too, and the two promise it of other tables.
fn drop_joint(t: &mut [u32], z: Sizes, i: u32)
    requires { Sound z t.old × (i < (extents (tables z t.old)).islands) × (0 < (joints_in z (tables z t.old)).count i) }
    ensures { JointDropped z i t.old t.new }
{
    let p = table_words::last(t, z, Table::Joints, i);
    let at = word::KEY * (p as usize);
    table_words::remove(t, z, Table::Joints, p);
    table_words::set_all(t, z, Table::Keys, at, &[NONE, NONE, NONE, NONE]);
    table_words::set_all(
        t,
        z,
        Table::Keys,
        at + word::KEY_BODIES,
        &[NONE, NONE, NONE, NONE],
    );
    table_words::push(t, z, Table::Spare, 0, p);
}

// All joint links of the island i go.
pub fn drop_joints(t: &mut [u32], z: Sizes, i: u32)
    requires { Sound z t.old × (i < (extents (tables z t.old)).islands) }
    ensures { JointsCleared z i t.old t.new }
{
    let links = table_words::count(t, z, Table::Joints, i);
    // One turn for each joint link of the island: at most as many as there are joint places.
    for _ in 0..links {
        drop_joint(t, z, i);
    }
}

// The body in slot s leaves the island i, in which others stay.
pub fn leave_some(t: &mut [u32], z: Sizes, s: u32, i: u32)
    requires { Sound z t.old × Housed z s i t.old × (1 < (members_in z (tables z t.old)).count i) }
    ensures { BodyLeft z (leave s i) s t.old t.new }
{
    table_words::remove(t, z, Table::Members, s);
    let at = word::ROW * (i as usize);
    let removals = table_words::get(t, z, Table::Rows, at);
    table_words::set(t, z, Table::Rows, at, removals.saturating_add(1));
}

// The island i, with the body in slot s alone and no link, is freed.
pub fn leave_last(t: &mut [u32], z: Sizes, s: u32, i: u32)
    requires { Sound z t.old × Housed z s i t.old × ((members_in z (tables z t.old)).count i ≡ 1) × ((contacts_in z (tables z t.old)).count i ≡ 0) × ((joints_in z (tables z t.old)).count i ≡ 0) }
    ensures { BodyLeft z (leave_last i) s t.old t.new }
{
    table_words::remove(t, z, Table::Members, s);
    table_words::set_all(t, z, Table::Rows, word::ROW * (i as usize), &[0, 0, 0]);
    table_words::push(t, z, Table::Freed, 0, i);
}

// The island i, whose only body is in slot s, drops its links and is freed.
fn remove_only(t: &mut [u32], z: Sizes, s: u32, i: u32)
    requires { Sound z t.old × Housed z s i t.old × ((members_in z (tables z t.old)).count i ≡ 1) }
    ensures { BodyLeft z (freeing i) s t.old t.new }
{
    drop_contacts(t, z, i);
    drop_joints(t, z, i);
    leave_last(t, z, s, i);
    core_live::clear_pending_split_of(t, z, i);
}

// remove, on sound tables.
pub fn remove_on(t: &mut [u32], z: Sizes, h: Handle) -> Answer
    requires { Sound z t.old }
    ensures { Removes z h.slot.0 h.generation t.old result t.new }
{
    let Some(i) = core_contact::body_island(t, z, h) else {
        return Ok(Outcome::Nothing);
    };
    if table_words::count(t, z, Table::Members, i) == 1 {
        remove_only(t, z, h.slot.0, i);
    } else {
        leave_some(t, z, h.slot.0, i);
    }
    Ok(Outcome::Done)
}

// retire, on sound tables.
pub fn retire_on(t: &mut [u32], z: Sizes, h: Handle) -> Answer
    requires { Sound z t.old }
    ensures { Does z (retire (handle h.slot.0 h.generation)) t.old result t.new }
{
    if !core_body::is_named(t, z, h) {
        return Ok(Outcome::Nothing);
    }
    // Taken out of its island, or in none: it is in none then.
    let _ = remove_on(t, z, h);
    core_body::empty_slot(t, z, h);
    Ok(Outcome::Done)
}

// A body's island, on sound tables.
pub fn island_on(t: &[u32], z: Sizes, h: Handle) -> Result<Option<Island>, Refusal>
    requires { Sound z t.now }
    ensures { result ≡ island (handle h.slot.0 h.generation) (world_of z t.now) }
{
    Ok(core_contact::body_island(t, z, h).map(Island))
}
