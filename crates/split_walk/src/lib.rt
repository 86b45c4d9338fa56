// The walks of a split on loose tables: contact links, joint links, then bodies leave the island base, from the highest place down, by swap removal.
// The island and its goals are lent as two: where a struct lent both, each promise would say x.entry.goals.now for goals.now.
#![tactic(auto)]

ghost use Rattle.std.specs.Prelude.{◌≡◌, ◌≢◌, length, ◌≤◌, ◌<◌, MatchOption};
ghost use Rattle.list_in_table.specs.Rules.{none};
ghost use Rattle.split_walk.specs.Walk.{goal_of, Goals, KeepStays, ContactAt, JointIn, ContactLeft, JointLeft, ContactsLeft, JointsLeft, BodiesLeft};

use def_kinds::{Handle, Sizes};
use table_meaning::{Table, word};

// Where a link goes: with its first end that is a member of base, else with its second; with neither, nowhere.
pub fn link_goal(
    t: &[u32],
    z: Sizes,
    base: u32,
    goals: &[u32],
    first: Handle,
    second: Handle,
) -> Option<u32>
    requires { Goals z base goals.now t.now }
    ensures { MatchOption result (goal_of z t.now base goals.now first second ≡ none) (λ to. (to ≡ goal_of z t.now base goals.now first second) × (to ≢ none)) }
{
    let place = match split_move::node_at(t, z, base, first) {
        Some(place) => place,
        None => split_move::node_at(t, z, base, second)?,
    };
    Some(goals[place as usize])
}

// The contact link e leaves, is dropped, or stays.
pub fn leave_contact(t: &mut [u32], z: Sizes, base: u32, goals: &[u32], e: u32)
    requires { Goals z base goals.now t.old × ContactAt z base e t.old }
    ensures { ContactLeft z base goals.now t.old t.new e }
{
    let at = word::TOUCH * (e as usize);
    let first = table_words::handle_at(t, z, Table::Touches, at);
    let second = table_words::handle_at(t, z, Table::Touches, at + word::SLOT2);
    match link_goal(t, z, base, goals, first, second) {
        None => core_contact::take_contact(t, z, e),
        Some(to) if to != base => split_move::move_contact(t, z, e, to),
        Some(_) => {}
    }
}

// The walks over the contact links, the joint links and the bodies differ in what holds at each step. One walk for all, over a closure or a trait, would take
// that as an invariant with its start, its step and its end as laws: longer than the loop that it saves.
// Counted down, by the words of the tables: the invariant is about the places that are left, and the list changes behind the walk.
pub fn contacts_leave(t: &mut [u32], z: Sizes, base: u32, goals: &[u32])
    requires { Goals z base goals.now t.old }
    ensures { ContactsLeft z base goals.now t.old t.new }
{
    let count = table_words::count(t, z, Table::Contacts, base);
    let mut e = table_words::last(t, z, Table::Contacts, base);
    // One turn for each contact link of the island: at most as many as there are edges.
    for _place in (0..count).rev() {
        let next = table_words::get(
            t,
            z,
            Table::Contacts,
            word::CELL * (e as usize) + word::PREV,
        );
        leave_contact(t, z, base, goals, e);
        e = next;
    }
}

// The joint link at the place q of the key table leaves, is dropped, or stays.
// Not one function with leave_contact: a joint keeps its place of the key table, and each promises it of its own list.
pub fn leave_joint(t: &mut [u32], z: Sizes, base: u32, goals: &[u32], q: u32)
    requires { Goals z base goals.now t.old × JointIn z base q t.old }
    ensures { JointLeft z base goals.now t.old t.new q }
{
    let at = word::KEY * (q as usize);
    let first = table_words::handle_at(t, z, Table::Keys, at + word::KEY_BODIES);
    let second = table_words::handle_at(t, z, Table::Keys, at + word::KEY_SLOT2);
    match link_goal(t, z, base, goals, first, second) {
        None => core_joint::take_joint(t, z, q),
        Some(to) if to != base => split_move::move_joint(t, z, q, to),
        Some(_) => {}
    }
}

// Not one walk for the three lists: a trait would take the invariant, its start, its step and its end as laws, for eight lines.
pub fn joints_leave(t: &mut [u32], z: Sizes, base: u32, goals: &[u32])
    requires { Goals z base goals.now t.old }
    ensures { JointsLeft z base goals.now t.old t.new }
{
    let count = table_words::count(t, z, Table::Joints, base);
    let mut q = table_words::last(t, z, Table::Joints, base);
    // One turn for each joint link of the island: at most as many as there are joint places.
    for _place in (0..count).rev() {
        let next = table_words::get(t, z, Table::Joints, word::CELL * (q as usize) + word::PREV);
        leave_joint(t, z, base, goals, q);
        q = next;
    }
}

pub fn bodies_leave(t: &mut [u32], z: Sizes, base: u32, keep: u32, goals: &[u32])
    requires { KeepStays z base keep goals.now t.old }
    ensures { BodiesLeft z base goals.now t.old t.new }
{
    let count = table_words::count(t, z, Table::Members, base);
    let mut s = table_words::last(t, z, Table::Members, base);
    // One turn for each body of the island: at most as many as there are slots.
    for place in (0..count).rev() {
        let next = table_words::get(t, z, Table::Members, word::CELL * (s as usize) + word::PREV);
        let to = goals[place as usize];
        if to != base {
            split_move::move_body(t, z, s, to);
        }
        s = next;
    }
}
