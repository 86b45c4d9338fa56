// The body table on sound tables: whom a handle names, put, flags; the words of a slot.
#![tactic(auto)]

ghost use Rattle.std.specs.Prelude.{◌≡◌, ℕ, ◌+◌, ◌*◌, ◌<◌, ◌≤◌};
ghost use Rattle.list_in_table.specs.Rules.{none};
ghost use Rattle.def_state.specs.World.{named};
ghost use Rattle.def_state.specs.Chain.{chainable};
ghost use Rattle.def_state.specs.Bodies.{put, flags as flags_step};
ghost use Rattle.table_meaning.specs.Layout.{tables, extents, members_in};
ghost use Rattle.table_meaning.specs.Decode.{world_of, bit_of};
ghost use Rattle.table_meaning.specs.Sound.{Sound};
ghost use Rattle.table_meaning.specs.Does.{Does};
ghost use Rattle.core_laws.specs.Steps.{handle, Grew, Stood};

use def_kinds::{Answer, Flags, Handle, NONE, Outcome, Refusal, Sizes};
use table_meaning::{Table, word};

// Does the handle name a live body?
pub fn is_named(t: &[u32], z: Sizes, h: Handle) -> bool
    requires { Sound z t.now }
    ensures { result ≡ named (world_of z t.now) (handle h.slot.0 h.generation) }
{
    let s = h.slot.0;
    // The generation NONE names nothing: C gives it so, and no option.
    h.generation != NONE
        && s < table_words::get(t, z, Table::Head, word::SLOTS_USED)
        && table_words::get(t, z, Table::Slots, word::SLOT * (s as usize)) == h.generation
}

// Is it a live, enabled, non-fixed body?
pub fn is_chainable(t: &[u32], z: Sizes, h: Handle) -> bool
    requires { Sound z t.now }
    ensures { result ≡ chainable (world_of z t.now) (handle h.slot.0 h.generation) }
{
    let at = word::SLOT * (h.slot.0 as usize);
    is_named(t, z, h)
        && table_words::get(t, z, Table::Slots, at + word::FIXED) != 1
        && table_words::get(t, z, Table::Slots, at + word::ENABLED) == 1
}

// The slot n, the first that is not in use, comes into use, vacant.
pub fn grow_slot(t: &mut [u32], z: Sizes, n: u32)
    requires { Sound z t.old × (n ≡ (extents (tables z t.old)).slots) × (n < z.slots) × (n < none) }
    ensures { Grew z (n + 1) t.old t.new }
{
    table_words::set_all(
        t,
        z,
        Table::Slots,
        word::SLOT * (n as usize),
        &[NONE, 0, 0, 0, 0],
    );
    table_words::set_all(
        t,
        z,
        Table::Members,
        word::CELL * (n as usize),
        &[NONE, NONE, NONE, NONE],
    );
    table_words::set(t, z, Table::Head, word::SLOTS_USED, n + 1);
}

// Just k slots in use, more than before, those taken in vacant.
pub fn grow_slots(t: &mut [u32], z: Sizes, k: u32)
    requires { Sound z t.old × ((extents (tables z t.old)).slots < k) × (k ≤ z.slots) }
    ensures { Grew z k t.old t.new }
{
    let in_use = table_words::get(t, z, Table::Head, word::SLOTS_USED);
    // One turn for each slot that is taken in: at most as many as there are slots.
    for n in in_use..k {
        grow_slot(t, z, n);
    }
}

// A live body with these flags stands in its slot, which is in use.
pub fn fill(t: &mut [u32], z: Sizes, h: Handle, lowest: u32, flags: Flags)
    requires { Sound z t.old × (h.slot.0 < (extents (tables z t.old)).slots) × (h.generation < none) }
    ensures { Stood z h.slot.0 h.generation lowest (bit_of flags.fixed) (bit_of flags.enabled) (bit_of flags.sleeping) t.old t.new }
{
    let s = h.slot.0;
    let fixed = u32::from(flags.fixed);
    let enabled = u32::from(flags.enabled);
    let sleeping = u32::from(flags.sleeping);
    table_words::set_all(
        t,
        z,
        Table::Slots,
        word::SLOT * (s as usize),
        &[h.generation, lowest, fixed, enabled, sleeping],
    );
}

// put, on sound tables. NONE is a generation's word for none, in the tables and from C, so it is compared as a number.
pub fn put_on(t: &mut [u32], z: Sizes, h: Handle, flags: Flags) -> Answer
    requires { Sound z t.old }
    ensures { Does z (put z (handle h.slot.0 h.generation) flags.fixed flags.enabled flags.sleeping) t.old result t.new }
{
    let s = h.slot.0;
    if s >= z.slots {
        return Err(Refusal::OverSize);
    }
    let in_use = table_words::get(t, z, Table::Head, word::SLOTS_USED);
    if s >= in_use {
        if h.generation == NONE {
            return Err(Refusal::BadGeneration);
        }
        grow_slots(t, z, s + 1);
        fill(t, z, h, 0, flags);
        return Ok(Outcome::Done);
    }
    let standing = table_words::get(t, z, Table::Slots, word::SLOT * (s as usize));
    if standing != NONE {
        return Err(Refusal::SlotTaken);
    }
    let lowest = table_words::get(t, z, Table::Slots, word::SLOT * (s as usize) + word::LOWEST);
    if h.generation < lowest || h.generation == NONE {
        return Err(Refusal::BadGeneration);
    }
    fill(t, z, h, lowest, flags);
    Ok(Outcome::Done)
}

// flags, on sound tables.
pub fn flags_on(t: &mut [u32], z: Sizes, h: Handle, flags: Flags) -> Answer
    requires { Sound z t.old }
    ensures { Does z (flags_step (handle h.slot.0 h.generation) flags.fixed flags.enabled flags.sleeping) t.old result t.new }
{
    if !is_named(t, z, h) {
        return Ok(Outcome::Nothing);
    }
    let s = h.slot.0;
    let lowest = table_words::get(t, z, Table::Slots, word::SLOT * (s as usize) + word::LOWEST);
    fill(t, z, h, lowest, flags);
    Ok(Outcome::Done)
}

// The slot of the body h, which is in no island, holds nothing any more; the lowest generation that may come next is one above that of h.
pub fn empty_slot(t: &mut [u32], z: Sizes, h: Handle)
    requires { Sound z t.old × (h.slot.0 < (extents (tables z t.old)).slots) × ((members_in z (tables z t.old)).home h.slot.0 ≡ none) × (h.generation < none) }
    ensures { Stood z h.slot.0 none (h.generation + 1) 0 0 0 t.old t.new }
{
    let s = h.slot.0;
    table_words::set_all(
        t,
        z,
        Table::Slots,
        word::SLOT * (s as usize),
        &[NONE, h.generation + 1, 0, 0, 0],
    );
}
