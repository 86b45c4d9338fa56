// The rig's calls for C and Rust programs: numbers and slices only. An answer is document 01's number; a flag is yes unless it is 0;
// a call that gives a value beside its answer gives both in one number of 64 bits, the answer in its high half.
// include/ashwoodrung.h says what each call means.
#![tactic(auto)]

ghost use Rattle.std.specs.Prelude.{◌≡◌, ◌/◌, ◌%◌, length};
ghost use Rattle.std.specs.Result.{result_unwrap_or};
ghost use Rattle.def_kinds.specs.Answers.{answer_of};
ghost use Rattle.def_kinds.specs.Number.{number, rig};
ghost use Rattle.def_state.specs.World.{impulse as impulse_key, chain as chain_key};
ghost use Rattle.def_state.specs.Bodies.{put, flags as flags_step, retire, island as island_of};
ghost use Rattle.def_state.specs.Membership.{ensure, remove};
ghost use Rattle.def_state.specs.Links.{link_contact, unlink_contact, contact_edge_removed, link_joint, unlink_joint};
ghost use Rattle.def_state.specs.Resolver.{resolve_removals};
ghost use Rattle.def_state.specs.Chain.{refresh_multibody_chain};
ghost use Rattle.core_laws.specs.Chaining.{handles_from};
ghost use Rattle.core_laws.specs.Steps.{handle};
ghost use Rattle.def_state.specs.Split.{split_island_now, schedule_split, run_pending_split};
ghost use Rattle.def_state.specs.Scan.{begin_sleep_scan, observe_body_for_sleep, mark_island_sleeping, wake_island};
ghost use Rattle.host_calls.specs.Refusal.{may_bid};
ghost use Rattle.ashwoodrung.specs.Told.{is_set, packed, island_word, island_told, bid_told, Told, ToldReset, ToldIsland, ToldBid, ToldList};

use def_kinds::{Edge, Flags, Handle, Island, JointKey, NONE, Refusal, Slot, number};

// C's flag; the name of a definition that the contracts cite.
fn is_set(x: u32) -> bool
    ensures { result ≡ is_set x }
{
    x != 0
}

// C's 64 bits:
// An answer and its value in one number of 64 bits; a refusal has the value `otherwise`.
fn both(answer: Result<u32, Refusal>, otherwise: u32) -> u64
    ensures { result ≡ packed (number (answer_of answer)) (result_unwrap_or answer otherwise) }
{
    let (number, value) = match answer {
        Ok(value) => (0, value),
        Err(refusal) => (u32::from(refusal), otherwise),
    };
    u64::from(number) * 4294967296 + u64::from(value)
}

// The number of an island, or that of none.
fn island_word(island: Option<Island>) -> u32
    ensures { result ≡ island_word island }
{
    island.map_or(NONE, |i| i.0)
}

fn tell_island(answer: Result<Option<Island>, Refusal>) -> u64
    ensures { result ≡ packed (number (answer_of answer)) (island_told answer) }
{
    both(answer.map(island_word), NONE)
}

fn tell_bid(answer: Result<bool, Refusal>) -> u64
    ensures { result ≡ packed (number (answer_of answer)) (bid_told answer) }
{
    both(answer.map(u32::from), 0)
}

fn flags_of(fixed: u32, enabled: u32, sleeping: u32) -> Flags
    ensures { (result.fixed ≡ is_set fixed) × (result.enabled ≡ is_set enabled) × (result.sleeping ≡ is_set sleeping) }
{
    let fixed = is_set(fixed);
    let enabled = is_set(enabled);
    let sleeping = is_set(sleeping);
    Flags {
        fixed,
        enabled,
        sleeping,
    }
}

pub fn ashwoodrung_reset(t: &mut [u32]) -> u32
    ensures { ToldReset t.old result t.new }
{
    number(host_calls::reset(t))
}

pub fn ashwoodrung_put(
    t: &mut [u32],
    slot: u32,
    generation: u32,
    fixed: u32,
    enabled: u32,
    sleeping: u32,
) -> u32
    ensures { Told (put rig (handle slot generation) (is_set fixed) (is_set enabled) (is_set sleeping)) t.old result t.new }
{
    let h = Handle::new(Slot(slot), generation);
    number(host_calls::put(t, h, flags_of(fixed, enabled, sleeping)))
}

pub fn ashwoodrung_flags(
    t: &mut [u32],
    slot: u32,
    generation: u32,
    fixed: u32,
    enabled: u32,
    sleeping: u32,
) -> u32
    ensures { Told (flags_step (handle slot generation) (is_set fixed) (is_set enabled) (is_set sleeping)) t.old result t.new }
{
    let h = Handle::new(Slot(slot), generation);
    number(host_calls::flags(t, h, flags_of(fixed, enabled, sleeping)))
}

pub fn ashwoodrung_ensure(t: &mut [u32], slot: u32, generation: u32) -> u32
    ensures { Told (ensure (handle slot generation)) t.old result t.new }
{
    let h = Handle::new(Slot(slot), generation);
    number(host_calls::ensure(t, h))
}

pub fn ashwoodrung_remove(t: &mut [u32], slot: u32, generation: u32) -> u32
    ensures { Told (remove (handle slot generation)) t.old result t.new }
{
    let h = Handle::new(Slot(slot), generation);
    number(host_calls::remove(t, h))
}

pub fn ashwoodrung_retire(t: &mut [u32], slot: u32, generation: u32) -> u32
    ensures { Told (retire (handle slot generation)) t.old result t.new }
{
    let h = Handle::new(Slot(slot), generation);
    number(host_calls::retire(t, h))
}

pub fn ashwoodrung_island(t: &[u32], slot: u32, generation: u32) -> u64
    ensures { ToldIsland (island_of (handle slot generation)) t.now result }
{
    let h = Handle::new(Slot(slot), generation);
    tell_island(host_calls::island(t, h))
}

pub fn ashwoodrung_contact(
    t: &mut [u32],
    edge: u32,
    slot1: u32,
    generation1: u32,
    slot2: u32,
    generation2: u32,
) -> u32
    ensures { Told (link_contact rig edge (handle slot1 generation1) (handle slot2 generation2)) t.old result t.new }
{
    let first = Handle::new(Slot(slot1), generation1);
    let second = Handle::new(Slot(slot2), generation2);
    number(host_calls::contact(t, Edge(edge), first, second))
}

pub fn ashwoodrung_uncontact(t: &mut [u32], edge: u32) -> u32
    ensures { Told (unlink_contact rig edge) t.old result t.new }
{
    number(host_calls::uncontact(t, Edge(edge)))
}

pub fn ashwoodrung_renumber(t: &mut [u32], removed: u32, last: u32) -> u32
    ensures { Told (contact_edge_removed removed last) t.old result t.new }
{
    number(host_calls::renumber(t, Edge(removed), Edge(last)))
}

pub fn ashwoodrung_joint_impulse(
    t: &mut [u32],
    index: u32,
    generation: u32,
    slot1: u32,
    generation1: u32,
    slot2: u32,
    generation2: u32,
) -> u32
    ensures { Told (link_joint rig (impulse_key index generation) (handle slot1 generation1) (handle slot2 generation2)) t.old result t.new }
{
    let first = Handle::new(Slot(slot1), generation1);
    let second = Handle::new(Slot(slot2), generation2);
    let key = JointKey::Impulse { index, generation };
    number(host_calls::joint(t, key, first, second))
}

pub fn ashwoodrung_joint_chain(
    t: &mut [u32],
    multibody: u64,
    ordinal: u32,
    slot1: u32,
    generation1: u32,
    slot2: u32,
    generation2: u32,
) -> u32
    ensures { Told (link_joint rig (chain_key (multibody / 4294967296) (multibody % 4294967296) ordinal) (handle slot1 generation1) (handle slot2 generation2)) t.old result t.new }
{
    let first = Handle::new(Slot(slot1), generation1);
    let second = Handle::new(Slot(slot2), generation2);
    let key = JointKey::Chain { multibody, ordinal };
    number(host_calls::joint(t, key, first, second))
}

pub fn ashwoodrung_unjoint_impulse(t: &mut [u32], index: u32, generation: u32) -> u32
    ensures { Told (unlink_joint rig (impulse_key index generation)) t.old result t.new }
{
    let key = JointKey::Impulse { index, generation };
    number(host_calls::unjoint(t, key))
}

pub fn ashwoodrung_unjoint_chain(t: &mut [u32], multibody: u64, ordinal: u32) -> u32
    ensures { Told (unlink_joint rig (chain_key (multibody / 4294967296) (multibody % 4294967296) ordinal)) t.old result t.new }
{
    let key = JointKey::Chain { multibody, ordinal };
    number(host_calls::unjoint(t, key))
}

// The list has two words a handle, its slot and its generation.
pub fn ashwoodrung_chain(t: &mut [u32], multibody: u64, list: &[u32]) -> u32
    ensures { Told (refresh_multibody_chain rig (multibody / 4294967296) (multibody % 4294967296) (handles_from list.now 0 (length list.now / 2))) t.old result t.new }
{
    number(host_calls::chain(t, multibody, list))
}

pub fn ashwoodrung_resolve(t: &mut [u32]) -> u32
    ensures { Told (resolve_removals) t.old result t.new }
{
    number(host_calls::resolve(t))
}

pub fn ashwoodrung_split(t: &mut [u32], island: u32) -> u32
    ensures { Told (split_island_now island) t.old result t.new }
{
    number(host_calls::split(t, Island(island)))
}

pub fn ashwoodrung_schedule(t: &mut [u32], island: u32) -> u32
    ensures { Told (schedule_split island) t.old result t.new }
{
    number(host_calls::schedule(t, Island(island)))
}

pub fn ashwoodrung_run(t: &mut [u32]) -> u32
    ensures { Told run_pending_split t.old result t.new }
{
    number(host_calls::run(t))
}

pub fn ashwoodrung_may_bid(t: &[u32], island: u32) -> u64
    ensures { ToldBid (may_bid island) t.now result }
{
    tell_bid(host_calls::may_bid(t, Island(island)))
}

pub fn ashwoodrung_begin(t: &mut [u32]) -> u32
    ensures { Told begin_sleep_scan t.old result t.new }
{
    number(host_calls::begin(t))
}

pub fn ashwoodrung_observe(t: &mut [u32], island: u32, eligible: u32) -> u32
    ensures { Told (observe_body_for_sleep island (is_set eligible)) t.old result t.new }
{
    number(host_calls::observe(t, Island(island), is_set(eligible)))
}

pub fn ashwoodrung_finish(t: &mut [u32], out: &mut [u32]) -> u64
    ensures { ToldList t.old out.old result t.new out.new }
{
    both(host_calls::finish(t, out), 0)
}

pub fn ashwoodrung_sleep(t: &mut [u32], island: u32) -> u32
    ensures { Told (mark_island_sleeping island) t.old result t.new }
{
    number(host_calls::sleep(t, Island(island)))
}

pub fn ashwoodrung_wake(t: &mut [u32], island: u32) -> u32
    ensures { Told (wake_island island) t.old result t.new }
{
    number(host_calls::wake(t, Island(island)))
}
