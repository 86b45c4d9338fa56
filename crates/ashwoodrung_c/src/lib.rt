// A static library can be no dependency, so its calls stand in the crate ashwoodrung too, which theorem_calls speaks of.
// The exports for C, of the static library libashwoodrung.a: each calls the call of its name in the crate ashwoodrung, with that call's promise.
// include/ashwoodrung.h says what each call means.
#![tactic(auto)]

ghost use Rattle.std.specs.Prelude.{◌/◌, ◌%◌, length};
ghost use Rattle.def_kinds.specs.Number.{rig};
ghost use Rattle.def_state.specs.World.{impulse as impulse_key, chain as chain_key};
ghost use Rattle.def_state.specs.Bodies.{put, flags, retire, island as island_of};
ghost use Rattle.def_state.specs.Membership.{ensure, remove};
ghost use Rattle.def_state.specs.Links.{link_contact, unlink_contact, contact_edge_removed, link_joint, unlink_joint};
ghost use Rattle.def_state.specs.Resolver.{resolve_removals};
ghost use Rattle.def_state.specs.Chain.{refresh_multibody_chain};
ghost use Rattle.core_laws.specs.Chaining.{handles_from};
ghost use Rattle.core_laws.specs.Steps.{handle};
ghost use Rattle.def_state.specs.Split.{split_island_now, schedule_split, run_pending_split};
ghost use Rattle.def_state.specs.Scan.{begin_sleep_scan, observe_body_for_sleep, mark_island_sleeping, wake_island};
ghost use Rattle.host_calls.specs.Refusal.{may_bid};
ghost use Rattle.ashwoodrung.specs.Told.{is_set, Told, ToldReset, ToldIsland, ToldBid, ToldList};

#[unsafe(no_mangle)]
pub extern "C" fn ashwoodrung_reset(t: &mut [u32]) -> u32
    ensures { ToldReset t.old result t.new }
{
    ashwoodrung::ashwoodrung_reset(t)
}

#[unsafe(no_mangle)]
pub extern "C" fn ashwoodrung_put(
    t: &mut [u32],
    slot: u32,
    generation: u32,
    fixed: u32,
    enabled: u32,
    sleeping: u32,
) -> u32
    ensures { Told (put rig (handle slot generation) (is_set fixed) (is_set enabled) (is_set sleeping)) t.old result t.new }
{
    ashwoodrung::ashwoodrung_put(t, slot, generation, fixed, enabled, sleeping)
}

#[unsafe(no_mangle)]
pub extern "C" fn ashwoodrung_flags(
    t: &mut [u32],
    slot: u32,
    generation: u32,
    fixed: u32,
    enabled: u32,
    sleeping: u32,
) -> u32
    ensures { Told (flags (handle slot generation) (is_set fixed) (is_set enabled) (is_set sleeping)) t.old result t.new }
{
    ashwoodrung::ashwoodrung_flags(t, slot, generation, fixed, enabled, sleeping)
}

#[unsafe(no_mangle)]
pub extern "C" fn ashwoodrung_ensure(t: &mut [u32], slot: u32, generation: u32) -> u32
    ensures { Told (ensure (handle slot generation)) t.old result t.new }
{
    ashwoodrung::ashwoodrung_ensure(t, slot, generation)
}

#[unsafe(no_mangle)]
pub extern "C" fn ashwoodrung_remove(t: &mut [u32], slot: u32, generation: u32) -> u32
    ensures { Told (remove (handle slot generation)) t.old result t.new }
{
    ashwoodrung::ashwoodrung_remove(t, slot, generation)
}

#[unsafe(no_mangle)]
pub extern "C" fn ashwoodrung_retire(t: &mut [u32], slot: u32, generation: u32) -> u32
    ensures { Told (retire (handle slot generation)) t.old result t.new }
{
    ashwoodrung::ashwoodrung_retire(t, slot, generation)
}

#[unsafe(no_mangle)]
pub extern "C" fn ashwoodrung_island(t: &[u32], slot: u32, generation: u32) -> u64
    ensures { ToldIsland (island_of (handle slot generation)) t.now result }
{
    ashwoodrung::ashwoodrung_island(t, slot, generation)
}

#[unsafe(no_mangle)]
pub extern "C" fn ashwoodrung_contact(
    t: &mut [u32],
    edge: u32,
    slot1: u32,
    generation1: u32,
    slot2: u32,
    generation2: u32,
) -> u32
    ensures { Told (link_contact rig edge (handle slot1 generation1) (handle slot2 generation2)) t.old result t.new }
{
    ashwoodrung::ashwoodrung_contact(t, edge, slot1, generation1, slot2, generation2)
}

#[unsafe(no_mangle)]
pub extern "C" fn ashwoodrung_uncontact(t: &mut [u32], edge: u32) -> u32
    ensures { Told (unlink_contact rig edge) t.old result t.new }
{
    ashwoodrung::ashwoodrung_uncontact(t, edge)
}

#[unsafe(no_mangle)]
pub extern "C" fn ashwoodrung_renumber(t: &mut [u32], removed: u32, last: u32) -> u32
    ensures { Told (contact_edge_removed removed last) t.old result t.new }
{
    ashwoodrung::ashwoodrung_renumber(t, removed, last)
}

#[unsafe(no_mangle)]
pub extern "C" fn ashwoodrung_joint_impulse(
    t: &mut [u32],
    index: u32,
    generation: u32,
    slot1: u32,
    generation1: u32,
    slot2: u32,
    generation2: u32,
) -> u32
    ensures { Told (link_joint rig (impulse_key index generation) (handle slot1 generation1) (handle slot2 generation2)) t.old result t.new }
{
    ashwoodrung::ashwoodrung_joint_impulse(
        t,
        index,
        generation,
        slot1,
        generation1,
        slot2,
        generation2,
    )
}

#[unsafe(no_mangle)]
pub extern "C" fn ashwoodrung_joint_chain(
    t: &mut [u32],
    multibody: u64,
    ordinal: u32,
    slot1: u32,
    generation1: u32,
    slot2: u32,
    generation2: u32,
) -> u32
    ensures { Told (link_joint rig (chain_key (multibody / 4294967296) (multibody % 4294967296) ordinal) (handle slot1 generation1) (handle slot2 generation2)) t.old result t.new }
{
    ashwoodrung::ashwoodrung_joint_chain(
        t,
        multibody,
        ordinal,
        slot1,
        generation1,
        slot2,
        generation2,
    )
}

#[unsafe(no_mangle)]
pub extern "C" fn ashwoodrung_unjoint_impulse(t: &mut [u32], index: u32, generation: u32) -> u32
    ensures { Told (unlink_joint rig (impulse_key index generation)) t.old result t.new }
{
    ashwoodrung::ashwoodrung_unjoint_impulse(t, index, generation)
}

#[unsafe(no_mangle)]
pub extern "C" fn ashwoodrung_unjoint_chain(t: &mut [u32], multibody: u64, ordinal: u32) -> u32
    ensures { Told (unlink_joint rig (chain_key (multibody / 4294967296) (multibody % 4294967296) ordinal)) t.old result t.new }
{
    ashwoodrung::ashwoodrung_unjoint_chain(t, multibody, ordinal)
}

// The list has two words a handle, its slot and its generation.
#[unsafe(no_mangle)]
pub extern "C" fn ashwoodrung_chain(t: &mut [u32], multibody: u64, list: &[u32]) -> u32
    ensures { Told (refresh_multibody_chain rig (multibody / 4294967296) (multibody % 4294967296) (handles_from list.now 0 (length list.now / 2))) t.old result t.new }
{
    ashwoodrung::ashwoodrung_chain(t, multibody, list)
}

#[unsafe(no_mangle)]
pub extern "C" fn ashwoodrung_resolve(t: &mut [u32]) -> u32
    ensures { Told (resolve_removals) t.old result t.new }
{
    ashwoodrung::ashwoodrung_resolve(t)
}

#[unsafe(no_mangle)]
pub extern "C" fn ashwoodrung_split(t: &mut [u32], island: u32) -> u32
    ensures { Told (split_island_now island) t.old result t.new }
{
    ashwoodrung::ashwoodrung_split(t, island)
}

#[unsafe(no_mangle)]
pub extern "C" fn ashwoodrung_schedule(t: &mut [u32], island: u32) -> u32
    ensures { Told (schedule_split island) t.old result t.new }
{
    ashwoodrung::ashwoodrung_schedule(t, island)
}

#[unsafe(no_mangle)]
pub extern "C" fn ashwoodrung_run(t: &mut [u32]) -> u32
    ensures { Told run_pending_split t.old result t.new }
{
    ashwoodrung::ashwoodrung_run(t)
}

#[unsafe(no_mangle)]
pub extern "C" fn ashwoodrung_may_bid(t: &[u32], island: u32) -> u64
    ensures { ToldBid (may_bid island) t.now result }
{
    ashwoodrung::ashwoodrung_may_bid(t, island)
}

#[unsafe(no_mangle)]
pub extern "C" fn ashwoodrung_begin(t: &mut [u32]) -> u32
    ensures { Told begin_sleep_scan t.old result t.new }
{
    ashwoodrung::ashwoodrung_begin(t)
}

#[unsafe(no_mangle)]
pub extern "C" fn ashwoodrung_observe(t: &mut [u32], island: u32, eligible: u32) -> u32
    ensures { Told (observe_body_for_sleep island (is_set eligible)) t.old result t.new }
{
    ashwoodrung::ashwoodrung_observe(t, island, eligible)
}

#[unsafe(no_mangle)]
pub extern "C" fn ashwoodrung_finish(t: &mut [u32], out: &mut [u32]) -> u64
    ensures { ToldList t.old out.old result t.new out.new }
{
    ashwoodrung::ashwoodrung_finish(t, out)
}

#[unsafe(no_mangle)]
pub extern "C" fn ashwoodrung_sleep(t: &mut [u32], island: u32) -> u32
    ensures { Told (mark_island_sleeping island) t.old result t.new }
{
    ashwoodrung::ashwoodrung_sleep(t, island)
}

#[unsafe(no_mangle)]
pub extern "C" fn ashwoodrung_wake(t: &mut [u32], island: u32) -> u32
    ensures { Told (wake_island island) t.old result t.new }
{
    ashwoodrung::ashwoodrung_wake(t, island)
}
