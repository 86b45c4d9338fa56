// Chain refresh: the old chain of a multibody is unlinked, then a new one is linked over the given bodies.
#![tactic(auto)]

ghost use Rattle.std.specs.Prelude.{◌≡◌, ◌+◌, ◌*◌, ◌/◌, ◌%◌, ◌<◌, ◌≤◌, length, get_or};
ghost use Rattle.list_in_table.specs.Rules.{none};
ghost use Rattle.def_state.specs.Chain.{chainable, chained, old_length, unlinked, linked_all, refresh_multibody_chain};
ghost use Rattle.table_meaning.specs.Decode.{world_of};
ghost use Rattle.table_meaning.specs.Sound.{Sound};
ghost use Rattle.table_meaning.specs.Does.{Does};
ghost use Rattle.core_laws.specs.Steps.{handle};
ghost use Rattle.core_laws.specs.Chaining.{handles_from, CameBySteps, LinkedOn};
ghost use Rattle.core_chain.specs.Linking.{present};

use def_kinds::{Answer, Handle, JointKey, NONE, Outcome, Refusal, Sizes, Slot};
use table_meaning::{Table, word};

// How many ordinals from 0 on are linked, up to the first that is missing.
fn old_length(t: &[u32], z: Sizes, multibody: u64) -> u32
    requires { Sound z t.now }
    ensures { (result ≡ old_length z (world_of z t.now) (multibody / 4294967296) (multibody % 4294967296)) × (result ≤ z.joints) }
{
    let mut ordinal: u32 = 0;
    // The walk stops at the first absent key, and after as many turns as there are joint links at most. It stays a `loop`: that the old length
    // comes by `break` is one of the project's own forms.
    loop {
        if ordinal >= z.joints {
            break ordinal;
        }
        if core_joint::find_place(t, z, JointKey::Chain { multibody, ordinal }).is_none() {
            break ordinal;
        }
        ordinal += 1;
    }
}

// The k-th handle of a list that has two words a handle.
// By places, as `handles_from` is.
fn handle_in(list: &[u32], k: usize) -> Handle
    requires { 2 * k + 1 < length list.now }
    ensures { (result.slot.0 ≡ get_or list.now (2 * k) 0) × (result.generation ≡ get_or list.now (2 * k + 1) 0) }
{
    Handle::new(Slot(list[2 * k]), list[2 * k + 1])
}

// How many bodies of the list, which has two words a handle, the new chain links.
fn count_chainable(t: &[u32], z: Sizes, list: &[u32]) -> usize
    requires { Sound z t.now }
    ensures { result ≡ length (chained (world_of z t.now) (handles_from list.now 0 (length list.now / 2))) }
{
    // One turn for each handle of the list.
    (0..list.len() / 2)
        .filter(|k| core_body::is_chainable(t, z, handle_in(list, *k)))
        .count()
}

// The first n ordinals are unlinked.
fn unlink_chain(t: &mut [u32], z: Sizes, multibody: u64, n: u32)
    requires { Sound z t.old }
    ensures { CameBySteps z t.old t.new (unlinked z (multibody / 4294967296) (multibody % 4294967296) 0 n (world_of z t.old)) }
{
    // One turn for each link of the old chain.
    for ordinal in 0..n {
        // The caller has seen to it that the journal has room.
        let _ = core_joint::unlink_joint_on(t, z, JointKey::Chain { multibody, ordinal });
    }
}

// How far a new chain has come: the body that was linked last, the absent handle where there is none, and the next ordinal.
#[derive(Clone, Copy)]
struct Linking {
    last: Handle,
    ordinal: u32,
}

// The next handle of the list. The ordinal rises for each pair, also where no link was recorded.
fn link_next(t: &mut [u32], z: Sizes, multibody: u64, linking: Linking, next: Handle) -> Linking
    requires { Sound z t.old × (linking.ordinal < none) }
    ensures { LinkedOn z (multibody / 4294967296) (multibody % 4294967296) (present linking.last.generation) linking.ordinal (handle linking.last.slot.0 linking.last.generation) (handle next.slot.0 next.generation) (present result.last.generation) result.ordinal (handle result.last.slot.0 result.last.generation) t.old t.new }
{
    if !core_body::is_chainable(t, z, next) {
        return linking;
    }
    let Linking { last, ordinal } = linking;
    // The absent handle, which is the project's form of no body yet: no body was linked.
    if last.generation == NONE {
        return Linking {
            last: next,
            ordinal: 0,
        };
    }
    // Where neither body is a member, no link is recorded.
    let _ = core_link::link_joint_on(t, z, JointKey::Chain { multibody, ordinal }, last, next);
    Linking {
        last: next,
        ordinal: ordinal + 1,
    }
}

// Successive bodies of the list, which has two words a handle, are linked.
fn link_chain(t: &mut [u32], z: Sizes, multibody: u64, list: &[u32])
    requires { Sound z t.old × (length list.now / 2 ≤ none) }
    ensures { CameBySteps z t.old t.new (linked_all z (multibody / 4294967296) (multibody % 4294967296) (chained (world_of z t.old) (handles_from list.now 0 (length list.now / 2))) (world_of z t.old)) }
{
    let mut linking = Linking {
        last: Handle::ABSENT,
        ordinal: 0,
    };
    // One turn for each handle of the list.
    for k in 0..list.len() / 2 {
        linking = link_next(t, z, multibody, linking, handle_in(list, k));
    }
}

// Chain refresh of the multibody, on sound tables. The list has two words a handle.
pub fn refresh_on(t: &mut [u32], z: Sizes, multibody: u64, list: &[u32]) -> Answer
    requires { Sound z t.old }
    ensures { Does z (refresh_multibody_chain z (multibody / 4294967296) (multibody % 4294967296) (handles_from list.now 0 (length list.now / 2))) t.old result t.new }
{
    if list.len() / 2 > (z.slots as usize) {
        return Err(Refusal::JointsFull);
    }
    let old = old_length(t, z, multibody);
    // A length fits 64 bits, and std has no From for it.
    let new = count_chainable(t, z, list) as u64;
    let room = u64::from(core_joint::joint_room(t, z));
    if room + u64::from(old) + 1 < new {
        return Err(Refusal::JointsFull);
    }
    let entries = u64::from(table_words::get(t, z, Table::Head, word::JOURNAL_USED));
    if u64::from(z.journal) < entries + u64::from(old) {
        return Err(Refusal::JournalFull);
    }
    unlink_chain(t, z, multibody, old);
    link_chain(t, z, multibody, list);
    Ok(Outcome::Done)
}
