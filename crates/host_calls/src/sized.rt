// The calls at any sizes, on any words: the audit, and then the step on sound tables.
#![tactic(auto, using(crate::proofs::Laws::call_unsound, crate::proofs::Laws::call_sound, crate::proofs::Laws::asks_unsound, crate::proofs::Laws::asks_sound, crate::proofs::Laws::finish_unsound, crate::proofs::Laws::finish_sound, crate::proofs::Laws::bid_is))]

ghost use Rattle.std.specs.Prelude.{◌≡◌, ◌/◌, ◌%◌, ◌≤◌, length, MatchResult};
ghost use Rattle.std.specs.Result.{result_unwrap_or};
ghost use Rattle.def_kinds.specs.Answers.{answer_of};
ghost use Rattle.def_kinds.specs.declared.Refusal.TheVariants.{BadTables};
ghost use Rattle.table_meaning.specs.Sound.{Sound};
ghost use Rattle.def_state.specs.Bodies.{put as put_step, flags as flags_step, retire as retire_step, island as island_of};
ghost use Rattle.def_state.specs.Membership.{ensure as ensure_step, remove as remove_step};
ghost use Rattle.def_state.specs.Links.{link_contact, unlink_contact, contact_edge_removed, link_joint, unlink_joint};
ghost use Rattle.def_state.specs.Resolver.{resolve_removals};
ghost use Rattle.def_state.specs.Chain.{refresh_multibody_chain};
ghost use Rattle.core_laws.specs.Chaining.{handles_from};
ghost use Rattle.table_meaning.specs.Does.{Called, Asks};
ghost use Rattle.def_state.specs.Split.{split_island_now, schedule_split, run_pending_split};
ghost use Rattle.host_calls.specs.Refusal.{refused_island, may_bid, refused_bid};
ghost use Rattle.table_meaning.specs.Keys.{key_is};
ghost use Rattle.core_laws.specs.Steps.{handle};
ghost use Rattle.def_state.specs.Scan.{begin_sleep_scan, observe_body_for_sleep, mark_island_sleeping, wake_island};
ghost use Rattle.core_finish.specs.Listing.{Finish};

use def_kinds::{Answer, Edge, Flags, Handle, Island, JointKey, Refusal, Sizes};

// Are the tables well formed? A call on others is refused.
fn audit(t: &[u32], z: Sizes) -> Result<(), Refusal>
    ensures { MatchResult result (λ _. Sound z t.now) (λ refusal. (refusal ≡ BadTables) × (Sound z t.now → ⊥)) }
{
    if table_audit::sound(t, z) {
        Ok(())
    } else {
        Err(Refusal::BadTables)
    }
}

pub fn put(t: &mut [u32], z: Sizes, h: Handle, flags: Flags) -> Answer
    ensures { Called z (put_step z (handle h.slot.0 h.generation) flags.fixed flags.enabled flags.sleeping) t.old result t.new }
{
    audit(t, z)?;
    core_body::put_on(t, z, h, flags)
}

pub fn flags(t: &mut [u32], z: Sizes, h: Handle, flags: Flags) -> Answer
    ensures { Called z (flags_step (handle h.slot.0 h.generation) flags.fixed flags.enabled flags.sleeping) t.old result t.new }
{
    audit(t, z)?;
    core_body::flags_on(t, z, h, flags)
}

pub fn ensure(t: &mut [u32], z: Sizes, h: Handle) -> Answer
    ensures { Called z (ensure_step (handle h.slot.0 h.generation)) t.old result t.new }
{
    audit(t, z)?;
    core_ensure::ensure_on(t, z, h)
}

pub fn remove(t: &mut [u32], z: Sizes, h: Handle) -> Answer
    ensures { Called z (remove_step (handle h.slot.0 h.generation)) t.old result t.new }
{
    audit(t, z)?;
    core_remove::remove_on(t, z, h)
}

pub fn retire(t: &mut [u32], z: Sizes, h: Handle) -> Answer
    ensures { Called z (retire_step (handle h.slot.0 h.generation)) t.old result t.new }
{
    audit(t, z)?;
    core_remove::retire_on(t, z, h)
}

pub fn island(t: &[u32], z: Sizes, h: Handle) -> Result<Option<Island>, Refusal>
    ensures { Asks z (island_of (handle h.slot.0 h.generation)) refused_island t.now result }
{
    audit(t, z)?;
    core_remove::island_on(t, z, h)
}

pub fn uncontact(t: &mut [u32], z: Sizes, edge: Edge) -> Answer
    ensures { Called z (unlink_contact z edge.0) t.old result t.new }
{
    audit(t, z)?;
    core_contact::unlink_contact_on(t, z, edge.0)
}

pub fn resolve(t: &mut [u32], z: Sizes) -> Answer
    ensures { Called z resolve_removals t.old result t.new }
{
    audit(t, z)?;
    core_resolve::resolve_on(t, z)
}

pub fn contact(t: &mut [u32], z: Sizes, edge: Edge, first: Handle, second: Handle) -> Answer
    ensures { Called z (link_contact z edge.0 (handle first.slot.0 first.generation) (handle second.slot.0 second.generation)) t.old result t.new }
{
    audit(t, z)?;
    core_link::link_contact_on(t, z, edge.0, first, second)
}

pub fn renumber(t: &mut [u32], z: Sizes, removed: Edge, last: Edge) -> Answer
    ensures { Called z (contact_edge_removed removed.0 last.0) t.old result t.new }
{
    audit(t, z)?;
    core_renumber::renumber_on(t, z, removed.0, last.0)
}

pub fn joint(t: &mut [u32], z: Sizes, key: JointKey, first: Handle, second: Handle) -> Answer
    ensures { Called z (link_joint z (key_is key) (handle first.slot.0 first.generation) (handle second.slot.0 second.generation)) t.old result t.new }
{
    audit(t, z)?;
    core_link::link_joint_on(t, z, key, first, second)
}

pub fn unjoint(t: &mut [u32], z: Sizes, key: JointKey) -> Answer
    ensures { Called z (unlink_joint z (key_is key)) t.old result t.new }
{
    audit(t, z)?;
    core_joint::unlink_joint_on(t, z, key)
}

// The list has two words a handle, its slot and its generation.
pub fn chain(t: &mut [u32], z: Sizes, multibody: u64, list: &[u32]) -> Answer
    ensures { Called z (refresh_multibody_chain z (multibody / 4294967296) (multibody % 4294967296) (handles_from list.now 0 (length list.now / 2))) t.old result t.new }
{
    audit(t, z)?;
    core_chain::refresh_on(t, z, multibody, list)
}

// ---- the sleep scan

pub fn begin(t: &mut [u32], z: Sizes) -> Answer
    ensures { Called z begin_sleep_scan t.old result t.new }
{
    audit(t, z)?;
    core_scan::begin_on(t, z)
}

pub fn observe(t: &mut [u32], z: Sizes, island: Island, eligible: bool) -> Answer
    ensures { Called z (observe_body_for_sleep island.0 eligible) t.old result t.new }
{
    audit(t, z)?;
    core_scan::observe_on(t, z, island.0, eligible)
}

// The list stands at the front of the output, which is written only at the answer Done.
pub fn finish(t: &mut [u32], z: Sizes, out: &mut [u32]) -> Result<u32, Refusal>
    ensures { Finish z t.old out.old (answer_of result) (result_unwrap_or result 0) t.new out.new }
{
    audit(t, z)?;
    core_finish::finish_on(t, z, out)
}

pub fn sleep(t: &mut [u32], z: Sizes, island: Island) -> Answer
    ensures { Called z (mark_island_sleeping island.0) t.old result t.new }
{
    audit(t, z)?;
    core_sleep::sleep_on(t, z, island.0)
}

pub fn wake(t: &mut [u32], z: Sizes, island: Island) -> Answer
    ensures { Called z (wake_island island.0) t.old result t.new }
{
    audit(t, z)?;
    core_sleep::wake_on(t, z, island.0)
}

// ---- the split. Its scratch is local, for at most 4,096 bodies.

pub fn split(t: &mut [u32], z: Sizes, island: Island) -> Answer
    requires { z.slots ≤ 4096 }
    ensures { Called z (split_island_now island.0) t.old result t.new }
{
    audit(t, z)?;
    split_island::split_on(t, z, island.0)
}

pub fn schedule(t: &mut [u32], z: Sizes, island: Island) -> Answer
    ensures { Called z (schedule_split island.0) t.old result t.new }
{
    audit(t, z)?;
    split_pending::schedule_on(t, z, island.0)
}

pub fn run(t: &mut [u32], z: Sizes) -> Answer
    requires { z.slots ≤ 4096 }
    ensures { Called z run_pending_split t.old result t.new }
{
    audit(t, z)?;
    split_pending::run_on(t, z)
}

pub fn may_bid(t: &[u32], z: Sizes, island: Island) -> Result<bool, Refusal>
    ensures { Asks z (may_bid island.0) refused_bid t.now result }
{
    audit(t, z)?;
    Ok(split_pending::may_bid(t, z, island.0))
}
