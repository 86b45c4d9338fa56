// Joint links on sound tables: the place that has a key, a place for a new one, one link comes or goes, joint unlink.
#![tactic(auto)]

ghost use Rattle.std.specs.Prelude.{◌≡◌, ◌≢◌, ℕ, ◌+◌, ◌*◌, ◌<◌, ◌≤◌, length, get_or};
ghost use Rattle.std.specs.Option.{MatchOption};
ghost use Rattle.list_in_table.specs.Rules.{none, Is};
ghost use Rattle.def_state.specs.Links.{joint_room, unlink_joint};
ghost use Rattle.table_meaning.specs.Keys.{key_is};
ghost use Rattle.table_meaning.specs.Layout.{tables, total, extents, members_in, joints_in, spare_in};
ghost use Rattle.table_meaning.specs.Decode.{world_of};
ghost use Rattle.table_meaning.specs.Sound.{Sound};
ghost use Rattle.table_meaning.specs.Does.{Does};
ghost use Rattle.core_laws.specs.Steps.{handle, Steps};
ghost use Rattle.core_laws.specs.Linking.{place_ready, joint_push};
ghost use Rattle.core_laws.specs.Places.{LinkedAs, PlaceHas, NoPlaceHas, grow_place, Unlinked, KeyAt};
ghost use Rattle.core_laws.specs.Loose.{Loosely, JointGone};

use def_kinds::{Answer, Handle, JointKey, NONE, Outcome, Refusal, Sizes};
use table_meaning::{KeyWords, Table, word};

// ---- which place has a key

// Is the place p linked, with the key of these words?
// The name of a definition that the promises cite.
fn is_keyed(t: &[u32], z: Sizes, p: u32, key: KeyWords) -> bool
    requires { (length t.now ≡ total z) × (p < z.joints) }
    ensures { Is result (LinkedAs z (tables z t.now) key.kind key.first key.second key.third p) }
{
    let at = word::KEY * (p as usize);
    // Most keys differ in the first word or the third, so these are asked first.
    // The home is a word of the tables, where NONE is no list.
    table_words::get(t, z, Table::Keys, at + word::KEY_FIRST) == key.first
        && table_words::get(t, z, Table::Keys, at + word::KEY_THIRD) == key.third
        && table_words::key_at(t, z, p) == key
        && table_words::home(t, z, Table::Joints, p) != NONE
}

// The linked place with these words for its key, if there is one.
pub fn find_words(t: &[u32], z: Sizes, key: KeyWords) -> Option<u32>
    requires { Sound z t.now }
    ensures { MatchOption result (Unlinked z (tables z t.now) key.kind key.first key.second key.third) (KeyAt z (tables z t.now) key.kind key.first key.second key.third) }
{
    let in_use = table_words::get(t, z, Table::Head, word::JOINTS_USED);
    // One turn for each joint place in use.
    (0..in_use).find(|p| is_keyed(t, z, *p, key))
}

// The linked place with this key, if there is one.
pub fn find_place(t: &[u32], z: Sizes, key: JointKey) -> Option<u32>
    requires { Sound z t.now }
    ensures { MatchOption result (NoPlaceHas z (tables z t.now) key) (PlaceHas z (tables z t.now) key) }
{
    find_words(t, z, KeyWords::from(key))
}

// ---- a free place

// How many joint links fit yet.
pub fn joint_room(t: &[u32], z: Sizes) -> u32
    requires { Sound z t.now }
    ensures { (result ≡ joint_room z (world_of z t.now)) × (z.joints ≤ none) }
{
    let in_use = table_words::get(t, z, Table::Head, word::JOINTS_USED);
    let spare = table_words::count(t, z, Table::Spare, 0);
    z.joints - in_use + spare
}

// The place p, the first that was never used, comes into use, free.
pub fn grow_place(t: &mut [u32], z: Sizes, p: u32)
    requires { Sound z t.old × (p ≡ (extents (tables z t.old)).joints) × (p < z.joints) × (p < none) }
    ensures { Steps z grow_place t.old t.new }
{
    let i = p as usize;
    table_words::set_all(t, z, Table::Keys, word::KEY * i, &[NONE, NONE, NONE, NONE]);
    table_words::set_all(
        t,
        z,
        Table::Keys,
        word::KEY * i + word::KEY_BODIES,
        &[NONE, NONE, NONE, NONE],
    );
    table_words::set_all(
        t,
        z,
        Table::Joints,
        word::CELL * i,
        &[NONE, NONE, NONE, NONE],
    );
    table_words::set_all(
        t,
        z,
        Table::Spare,
        word::CELL * i,
        &[NONE, NONE, NONE, NONE],
    );
    table_words::push(t, z, Table::Spare, 0, p);
    table_words::set(t, z, Table::Head, word::JOINTS_USED, p + 1);
}

// There is a free place: the next unused one comes in where none is free.
// Not one function with core_ensure::make_ready: each promises another table's step.
pub fn ready_place(t: &mut [u32], z: Sizes)
    requires { Sound z t.old × ((spare_in z (tables z t.old)).count 0 ≡ 0 → ((extents (tables z t.old)).joints < z.joints) × ((extents (tables z t.old)).joints < none)) }
    ensures { Steps z place_ready t.old t.new }
{
    if table_words::count(t, z, Table::Spare, 0) == 0 {
        let next = table_words::get(t, z, Table::Head, word::JOINTS_USED);
        grow_place(t, z, next);
    }
}

// ---- a link comes and goes

// The last freed place takes the link, whose key is new: the last joint link of the island i, which is live.
pub fn push_joint(t: &mut [u32], z: Sizes, i: u32, key: JointKey, first: Handle, second: Handle)
    requires { Sound z t.old × (0 < (spare_in z (tables z t.old)).count 0) × (i < (extents (tables z t.old)).islands) × (0 < (members_in z (tables z t.old)).count i) × NoPlaceHas z (tables z t.old) key }
    ensures { Steps z (joint_push i (key_is key) (handle first.slot.0 first.generation) (handle second.slot.0 second.generation)) t.old t.new }
{
    let p = table_words::last(t, z, Table::Spare, 0);
    table_words::remove(t, z, Table::Spare, p);
    table_words::push(t, z, Table::Joints, i, p);
    let words = KeyWords::from(key);
    let at = word::KEY * (p as usize);
    table_words::set_all(
        t,
        z,
        Table::Keys,
        at,
        &[words.kind, words.first, words.second, words.third],
    );
    table_words::set_all(
        t,
        z,
        Table::Keys,
        at + word::KEY_BODIES,
        &[
            first.slot.0,
            first.generation,
            second.slot.0,
            second.generation,
        ],
    );
}

// The link at the place p goes, and the place is free.
pub fn take_joint(t: &mut [u32], z: Sizes, p: u32)
    requires { Loosely z t.old × (p < (extents (tables z t.old)).joints) × ((joints_in z (tables z t.old)).home p ≢ none) }
    ensures { JointGone z p t.old t.new }
{
    table_words::remove(t, z, Table::Joints, p);
    table_words::set_all(
        t,
        z,
        Table::Keys,
        word::KEY * (p as usize),
        &[NONE, NONE, NONE, NONE],
    );
    table_words::set_all(
        t,
        z,
        Table::Keys,
        word::KEY * (p as usize) + word::KEY_BODIES,
        &[NONE, NONE, NONE, NONE],
    );
    table_words::push(t, z, Table::Spare, 0, p);
}

// unlink_joint, on sound tables. A link from a body to itself is not journalled.
// Not one function with core_contact::unlink_contact_on: what goes in between is another list's, and so is the promise.
pub fn unlink_joint_on(t: &mut [u32], z: Sizes, key: JointKey) -> Answer
    requires { Sound z t.old }
    ensures { Does z (unlink_joint z (key_is key)) t.old result t.new }
{
    let Some(p) = find_place(t, z, key) else {
        return Ok(Outcome::Nothing);
    };
    let at = word::KEY * (p as usize);
    let first = table_words::handle_at(t, z, Table::Keys, at + word::KEY_BODIES);
    let second = table_words::handle_at(t, z, Table::Keys, at + word::KEY_SLOT2);
    if first == second {
        take_joint(t, z, p);
        return Ok(Outcome::Done);
    }
    if table_words::get(t, z, Table::Head, word::JOURNAL_USED) >= z.journal {
        return Err(Refusal::JournalFull);
    }
    take_joint(t, z, p);
    core_contact::push_entry(t, z, first, second);
    Ok(Outcome::Done)
}
