// Each is a call over the one at any sizes (sized.rt), two of which have a `requires`, and a host call has none.
// The host calls, at the rig's sizes and in the named types: each audits the buffer first, and none has a `requires`. At any sizes: sized.rt.
#![tactic(auto)]

ghost use Rattle.std.specs.Prelude.{◌≡◌, ◌≤◌, length, ◌/◌, ◌%◌};
ghost use Rattle.std.specs.Result.{result_unwrap_or};
ghost use Rattle.def_kinds.specs.Answers.{answer_of};
ghost use Rattle.def_kinds.specs.Number.{rig};
ghost use Rattle.def_state.specs.Bodies.{put as put_step, flags as flags_step, retire as retire_step, island as island_of};
ghost use Rattle.def_state.specs.Membership.{ensure as ensure_step, remove as remove_step};
ghost use Rattle.def_state.specs.Links.{link_contact, unlink_contact, contact_edge_removed, link_joint, unlink_joint};
ghost use Rattle.def_state.specs.Resolver.{resolve_removals};
ghost use Rattle.def_state.specs.Chain.{refresh_multibody_chain};
ghost use Rattle.core_laws.specs.Chaining.{handles_from};
ghost use Rattle.table_meaning.specs.Does.{Called, Asks, Reset};
ghost use Rattle.def_state.specs.Split.{split_island_now, schedule_split, run_pending_split};
ghost use Rattle.host_calls.specs.Refusal.{refused_island, may_bid, refused_bid};
ghost use Rattle.table_meaning.specs.Keys.{key_is};
ghost use Rattle.core_laws.specs.Steps.{handle};
ghost use Rattle.def_state.specs.Scan.{begin_sleep_scan, observe_body_for_sleep, mark_island_sleeping, wake_island};
ghost use Rattle.core_finish.specs.Listing.{Finish};

use def_kinds::{Answer, Edge, Flags, Handle, Island, JointKey, Refusal, Sizes};

pub mod sized;

// ---- the rig's calls

pub fn reset(t: &mut [u32]) -> Answer
    ensures { Reset rig t.old result t.new }
{
    core_reset::reset_of(t, Sizes::RIG)
}

pub fn put(t: &mut [u32], h: Handle, flags: Flags) -> Answer
    ensures { Called rig (put_step rig (handle h.slot.0 h.generation) flags.fixed flags.enabled flags.sleeping) t.old result t.new }
{
    sized::put(t, Sizes::RIG, h, flags)
}

pub fn flags(t: &mut [u32], h: Handle, flags: Flags) -> Answer
    ensures { Called rig (flags_step (handle h.slot.0 h.generation) flags.fixed flags.enabled flags.sleeping) t.old result t.new }
{
    sized::flags(t, Sizes::RIG, h, flags)
}

pub fn ensure(t: &mut [u32], h: Handle) -> Answer
    ensures { Called rig (ensure_step (handle h.slot.0 h.generation)) t.old result t.new }
{
    sized::ensure(t, Sizes::RIG, h)
}

pub fn remove(t: &mut [u32], h: Handle) -> Answer
    ensures { Called rig (remove_step (handle h.slot.0 h.generation)) t.old result t.new }
{
    sized::remove(t, Sizes::RIG, h)
}

pub fn retire(t: &mut [u32], h: Handle) -> Answer
    ensures { Called rig (retire_step (handle h.slot.0 h.generation)) t.old result t.new }
{
    sized::retire(t, Sizes::RIG, h)
}

// A body's island, or none.
pub fn island(t: &[u32], h: Handle) -> Result<Option<Island>, Refusal>
    ensures { Asks rig (island_of (handle h.slot.0 h.generation)) refused_island t.now result }
{
    sized::island(t, Sizes::RIG, h)
}

// Links a touching contact between two bodies, merging their islands if they differ.
pub fn contact(t: &mut [u32], edge: Edge, first: Handle, second: Handle) -> Answer
    ensures { Called rig (link_contact rig edge.0 (handle first.slot.0 first.generation) (handle second.slot.0 second.generation)) t.old result t.new }
{
    sized::contact(t, Sizes::RIG, edge, first, second)
}

// Unlinks the contact of an edge number, and journals its removal.
pub fn uncontact(t: &mut [u32], edge: Edge) -> Answer
    ensures { Called rig (unlink_contact rig edge.0) t.old result t.new }
{
    sized::uncontact(t, Sizes::RIG, edge)
}

// The edge `removed` is gone, and the edge `last` has taken its number.
pub fn renumber(t: &mut [u32], removed: Edge, last: Edge) -> Answer
    ensures { Called rig (contact_edge_removed removed.0 last.0) t.old result t.new }
{
    sized::renumber(t, Sizes::RIG, removed, last)
}

// Links a joint between two bodies, merging their islands if they differ.
pub fn joint(t: &mut [u32], key: JointKey, first: Handle, second: Handle) -> Answer
    ensures { Called rig (link_joint rig (key_is key) (handle first.slot.0 first.generation) (handle second.slot.0 second.generation)) t.old result t.new }
{
    sized::joint(t, Sizes::RIG, key, first, second)
}

// Unlinks the joint of a key, and journals its removal.
pub fn unjoint(t: &mut [u32], key: JointKey) -> Answer
    ensures { Called rig (unlink_joint rig (key_is key)) t.old result t.new }
{
    sized::unjoint(t, Sizes::RIG, key)
}

// Unlinks the multibody's chain and links a new one over the bodies of the list, two words a handle.
pub fn chain(t: &mut [u32], multibody: u64, list: &[u32]) -> Answer
    ensures { Called rig (refresh_multibody_chain rig (multibody / 4294967296) (multibody % 4294967296) (handles_from list.now 0 (length list.now / 2))) t.old result t.new }
{
    sized::chain(t, Sizes::RIG, multibody, list)
}

// Counts the journal's entries, and empties it.
pub fn resolve(t: &mut [u32]) -> Answer
    ensures { Called rig resolve_removals t.old result t.new }
{
    sized::resolve(t, Sizes::RIG)
}

// Opens a sleep scan, anew where one is open.
pub fn begin(t: &mut [u32]) -> Answer
    ensures { Called rig begin_sleep_scan t.old result t.new }
{
    sized::begin(t, Sizes::RIG)
}

// A body of the island was looked at, and may sleep or not.
pub fn observe(t: &mut [u32], island: Island, eligible: bool) -> Answer
    ensures { Called rig (observe_body_for_sleep island.0 eligible) t.old result t.new }
{
    sized::observe(t, Sizes::RIG, island, eligible)
}

// Lists the islands that may sleep, in order of first observation, and closes the scan.
pub fn finish(t: &mut [u32], out: &mut [u32]) -> Result<u32, Refusal>
    ensures { Finish rig t.old out.old (answer_of result) (result_unwrap_or result 0) t.new out.new }
{
    sized::finish(t, Sizes::RIG, out)
}

// The island sleeps; a pending split of it is cleared.
pub fn sleep(t: &mut [u32], island: Island) -> Answer
    ensures { Called rig (mark_island_sleeping island.0) t.old result t.new }
{
    sized::sleep(t, Sizes::RIG, island)
}

// The island wakes.
pub fn wake(t: &mut [u32], island: Island) -> Answer
    ensures { Called rig (wake_island island.0) t.old result t.new }
{
    sized::wake(t, Sizes::RIG, island)
}

// Splits a live island into its components.
pub fn split(t: &mut [u32], island: Island) -> Answer
    ensures { Called rig (split_island_now island.0) t.old result t.new }
{
    sized::split(t, Sizes::RIG, island)
}

// The island waits for its split; any number.
pub fn schedule(t: &mut [u32], island: Island) -> Answer
    ensures { Called rig (schedule_split island.0) t.old result t.new }
{
    sized::schedule(t, Sizes::RIG, island)
}

// Runs the waiting split.
pub fn run(t: &mut [u32]) -> Answer
    ensures { Called rig run_pending_split t.old result t.new }
{
    sized::run(t, Sizes::RIG)
}

// May the island bid for a split?
pub fn may_bid(t: &[u32], island: Island) -> Result<bool, Refusal>
    ensures { Asks rig (may_bid island.0) refused_bid t.now result }
{
    sized::may_bid(t, Sizes::RIG, island)
}
