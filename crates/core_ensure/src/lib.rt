// Ensure on sound tables: a number for a new island, the island of one body.
#![tactic(auto)]

ghost use Rattle.std.specs.Prelude.{◌≡◌, ◌≢◌, ℕ, ◌+◌, ◌*◌, ◌<◌, ◌≤◌, length, get_or};
ghost use Rattle.list_in_table.specs.Rules.{none};
ghost use Rattle.def_state.specs.Membership.{may_join, ensure};
ghost use Rattle.table_meaning.specs.Layout.{tables, total, extents, members_in, freed_in};
ghost use Rattle.table_meaning.specs.Decode.{world_of, flag};
ghost use Rattle.table_meaning.specs.Sound.{Sound};
ghost use Rattle.table_meaning.specs.Does.{Does};
ghost use Rattle.core_laws.specs.Steps.{handle, island_blanked, found, Steps};
ghost use Rattle.core_laws.specs.Loose.{Loosely, IslandMore, MadeReady};

use def_kinds::{Answer, Handle, NONE, Outcome, Sizes};
use table_meaning::{Table, word};

// Is it a live, enabled, non-fixed non-member?
pub fn may_join(t: &[u32], z: Sizes, h: Handle) -> bool
    requires { Sound z t.now }
    ensures { result ≡ may_join (world_of z t.now) (handle h.slot.0 h.generation) }
{
    // The tables, which C reads too, have NONE for no island.
    core_body::is_chainable(t, z, h) && table_words::home(t, z, Table::Members, h.slot.0) == NONE
}

// The words of an island number that is taken in: no bodies, no links, not observed, not yet in the free stack.
fn blank_island(t: &mut [u32], z: Sizes, m: u32)
    requires { (length t.old ≡ total z) × (m < z.islands) }
    ensures { (length t.new ≡ length t.old) × (tables z t.new ≡ island_blanked z (tables z t.old) m) }
{
    let bodies = table_words::ends_at(z, Table::Members);
    let contacts = table_words::ends_at(z, Table::Contacts);
    let joints = table_words::ends_at(z, Table::Joints);
    let i = m as usize;
    table_words::set_all(t, z, Table::Members, bodies + word::END * i, &[0, NONE]);
    table_words::set_all(t, z, Table::Contacts, contacts + word::END * i, &[0, NONE]);
    table_words::set_all(t, z, Table::Joints, joints + word::END * i, &[0, NONE]);
    table_words::set_all(t, z, Table::Rows, word::ROW * i, &[0, 0, 0]);
    table_words::set_all(t, z, Table::Scan, word::CELL * i, &[NONE, NONE, NONE, NONE]);
    table_words::set(t, z, Table::Fit, i, 0);
    table_words::set_all(
        t,
        z,
        Table::Freed,
        word::CELL * i,
        &[NONE, NONE, NONE, NONE],
    );
}

// The island number m, the first that was never used, comes into use, freed.
pub fn grow_island(t: &mut [u32], z: Sizes, m: u32)
    requires { Loosely z t.old × (m ≡ (extents (tables z t.old)).islands) × (m < z.islands) × (m < none) }
    ensures { IslandMore z t.old t.new }
{
    blank_island(t, z, m);
    table_words::push(t, z, Table::Freed, 0, m);
    table_words::set(t, z, Table::Head, word::ISLANDS_USED, m + 1);
}

// There is a free number: the next unused one comes in where the stack is empty.
// Not one function with core_joint::ready_place: each promises another table's step.
pub fn make_ready(t: &mut [u32], z: Sizes)
    requires { Loosely z t.old × ((freed_in z (tables z t.old)).count 0 ≡ 0 → ((extents (tables z t.old)).islands < z.islands) × ((extents (tables z t.old)).islands < none)) }
    ensures { MadeReady z t.old t.new }
{
    if table_words::count(t, z, Table::Freed, 0) == 0 {
        let next = table_words::get(t, z, Table::Head, word::ISLANDS_USED);
        grow_island(t, z, next);
    }
}

// The last freed number becomes an island of the body in slot s, a live body that is in no island.
pub fn found_island(t: &mut [u32], z: Sizes, s: u32)
    requires { Sound z t.old × (s < (extents (tables z t.old)).slots) × ((members_in z (tables z t.old)).home s ≡ none) × (get_or (tables z t.old).slots (5 * s) 0 ≢ none) × (0 < (freed_in z (tables z t.old)).count 0) × (get_or (tables z t.old).slots (5 * s + 4) 0 ≤ 1) }
    ensures { Steps z (found s (flag (get_or (tables z t.old).slots (5 * s + 4) 0))) t.old t.new }
{
    let asleep = table_words::get(
        t,
        z,
        Table::Slots,
        word::SLOT * (s as usize) + word::SLEEPING,
    );
    let i = table_words::last(t, z, Table::Freed, 0);
    table_words::remove(t, z, Table::Freed, i);
    table_words::push(t, z, Table::Members, i, s);
    table_words::set(
        t,
        z,
        Table::Rows,
        word::ROW * (i as usize) + word::ASLEEP,
        asleep,
    );
}

// ensure, on sound tables.
pub fn ensure_on(t: &mut [u32], z: Sizes, h: Handle) -> Answer
    requires { Sound z t.old }
    ensures { Does z (ensure (handle h.slot.0 h.generation)) t.old result t.new }
{
    if !may_join(t, z, h) {
        return Ok(Outcome::Nothing);
    }
    make_ready(t, z);
    found_island(t, z, h.slot.0);
    Ok(Outcome::Done)
}
