// Contact link and joint link on sound tables: who is a member, merge, then the link is appended.
#![tactic(auto)]

ghost use Rattle.std.specs.Prelude.{◌≡◌, ◌≢◌, ◌≤◌, MatchOption};
ghost use Rattle.list_in_table.specs.Rules.{none};
ghost use Rattle.def_state.specs.Links.{joint_home, joint_room, link_contact, link_joint, target};
ghost use Rattle.table_meaning.specs.Decode.{world_of};
ghost use Rattle.table_meaning.specs.Keys.{key_is};
ghost use Rattle.table_meaning.specs.Sound.{Sound};
ghost use Rattle.table_meaning.specs.Does.{Does};
ghost use Rattle.core_laws.specs.Steps.{handle, Steps};
ghost use Rattle.core_laws.specs.Lives.{Lives};
ghost use Rattle.core_laws.specs.Linking.{joint_hold};
ghost use Rattle.core_laws.specs.Merging.{LinkEnds};

use def_kinds::{Answer, Handle, JointKey, NONE, Outcome, Refusal, Sizes};
use table_meaning::Table;

// The islands of a link's two bodies, whose merge is to hold the link. A body that is in none goes with the other's; where neither body is a member, none.
fn link_islands(t: &[u32], z: Sizes, first: Handle, second: Handle) -> Option<(u32, u32)>
    requires { Sound z t.now }
    ensures { MatchOption result (target (world_of z t.now) (handle first.slot.0 first.generation) (handle second.slot.0 second.generation) ≡ none) (λ i. LinkEnds z (handle first.slot.0 first.generation) (handle second.slot.0 second.generation) t.now i.0 i.1) }
{
    let first_island = core_contact::body_island(t, z, first);
    let second_island = core_contact::body_island(t, z, second);
    match (first_island, second_island) {
        (None, None) => None,
        (Some(i), None) => Some((i, i)),
        (None, Some(i)) => Some((i, i)),
        (Some(a), Some(b)) => Some((a, b)),
    }
}

// Contact link, on sound tables.
pub fn link_contact_on(t: &mut [u32], z: Sizes, e: u32, first: Handle, second: Handle) -> Answer
    requires { Sound z t.old }
    ensures { Does z (link_contact z e (handle first.slot.0 first.generation) (handle second.slot.0 second.generation)) t.old result t.new }
{
    if e >= z.edges {
        return Err(Refusal::OverSize);
    }
    core_contact::grow_edges(t, z, e + 1);
    // A word of the tables, where NONE is no list.
    if table_words::home(t, z, Table::Contacts, e) != NONE {
        return Ok(Outcome::Nothing);
    }
    let Some((a, b)) = link_islands(t, z, first, second) else {
        return Ok(Outcome::Nothing);
    };
    let island = core_merge::merge_islands(t, z, a, b);
    core_contact::push_contact(t, z, island, e, first, second);
    Ok(Outcome::Done)
}

// A place is taken for a joint link, the last of the island i.
fn hold_joint(t: &mut [u32], z: Sizes, i: u32, key: JointKey, first: Handle, second: Handle)
    requires { Sound z t.old × (joint_home (world_of z t.old) (key_is key) ≡ none) × Lives z t.old i × (joint_room z (world_of z t.old) ≢ 0) × (z.joints ≤ none) }
    ensures { Steps z (joint_hold i (key_is key) (handle first.slot.0 first.generation) (handle second.slot.0 second.generation)) t.old t.new }
{
    core_joint::ready_place(t, z);
    core_joint::push_joint(t, z, i, key, first, second);
}

// Joint link, on sound tables.
pub fn link_joint_on(
    t: &mut [u32],
    z: Sizes,
    key: JointKey,
    first: Handle,
    second: Handle,
) -> Answer
    requires { Sound z t.old }
    ensures { Does z (link_joint z (key_is key) (handle first.slot.0 first.generation) (handle second.slot.0 second.generation)) t.old result t.new }
{
    if core_joint::find_place(t, z, key).is_some() {
        return Ok(Outcome::Nothing);
    }
    let Some((a, b)) = link_islands(t, z, first, second) else {
        return Ok(Outcome::Nothing);
    };
    if core_joint::joint_room(t, z) == 0 {
        return Err(Refusal::JointsFull);
    }
    let island = core_merge::merge_islands(t, z, a, b);
    hold_joint(t, z, island, key, first, second);
    Ok(Outcome::Done)
}
