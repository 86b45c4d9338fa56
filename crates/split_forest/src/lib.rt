// Sets of places, each a tree with its root, joined smaller under larger.
// The two lists of a forest are lent side by side: a struct that holds two &mut slices has a ghost name and a length of each to be kept by every promise.
#![tactic(auto)]

ghost use Rattle.std.specs.Prelude.{◌≡◌, List, [], ℕ, ◌≤◌, ◌<◌, length, set};
ghost use Rattle.list_in_table.specs.Rules.{none, Is};
ghost use Rattle.def_state.specs.Connected.{label, keep_label};
ghost use Rattle.split_forest.specs.Groups.{Groups};
ghost use Rattle.split_forest.specs.Forest.{at, climb, root_of, ForestStands, Wood, RootReady, Lifted, JoinReady, JoinDone, Led, NameReady};

use def_kinds::NONE;

// No tree over 4,096 places is higher.
pub const HEIGHT: u32 = 12;

// Each place a tree of its own.
pub fn clear(parent: &mut [u32], size: &mut [u32])
    requires { (length size.old ≡ length parent.old) × (length parent.old ≤ 4096) }
    ensures { ForestStands (length parent.old) (at parent.new) (at size.new) [] }
{
    // One turn for each place: at most 4,096.
    for (i, p) in parent.iter_mut().enumerate() {
        // Places are below 4,096, so `as` loses nothing, here and below; TryFrom would add a refusal that cannot be.
        *p = i as u32;
    }
    size.fill(1);
}

// The root of i, which is at most height steps away. It calls itself on the parent, with one step less remaining: at most height times.
// The list is lent through a reference: a call then hands on one word, and the compiler makes a loop of the calls.
pub fn root(parent: &&[u32], i: u32, height: u32) -> u32
    requires { RootReady parent.now.now i }
    ensures { result ≡ climb (at parent.now.now) height i }
{
    if height == 0 {
        return i;
    }
    let p = parent[i as usize];
    if p == i {
        return i;
    }
    root(parent, p, height - 1)
}

// The root of i, in a forest of at most 4,096 places.
fn root_of(parent: &[u32], i: u32) -> u32
    requires { RootReady parent.now i }
    ensures { result ≡ climb (at parent.now) 12 i }
{
    root(&parent, i, HEIGHT)
}

// The root of i, under which i itself then hangs.
fn lift(parent: &mut [u32], i: u32) -> u32
    requires { RootReady parent.old i }
    ensures { Lifted parent.old parent.new i result }
{
    let r = root_of(parent, i);
    parent[i as usize] = r;
    r
}

// Do a and b hang under one place? Then they have one root, and no walk is needed to see it.
fn share_parent(parent: &[u32], a: u32, b: u32) -> bool
    requires { (a < length parent.now) × (b < length parent.now) }
    ensures { Is result (at parent.now a ≡ at parent.now b) }
{
    parent[a as usize] == parent[b as usize]
}

// Hangs the root small under the root large, whose tree then has so many members.
fn hang(parent: &mut [u32], size: &mut [u32], small: u32, large: u32, members: u32)
    requires { (small < length parent.old) × (large < length size.old) }
    ensures { (parent.new ≡ set parent.old small large) × (size.new ≡ set size.old large members) }
{
    parent[small as usize] = large;
    size[large as usize] = members;
}

// Joins the trees of a and b, the smaller under the larger, b's under a's where they are equal. Says whether they were apart.
// Where it has to walk, it hangs a and b under their roots, so that later walks are short.
#[inline(always)]
pub fn join(parent: &mut [u32], size: &mut [u32], a: u32, b: u32) -> bool
    requires { JoinReady parent.old size.old a b }
    ensures { JoinDone (length parent.old) (at parent.old) (at parent.new) (at size.new) a b result }
{
    if share_parent(parent, a, b) {
        return false;
    }
    let root_a = lift(parent, a);
    let root_b = lift(parent, b);
    if root_a == root_b {
        return false;
    }
    let size_a = size[root_a as usize];
    let size_b = size[root_b as usize];
    let both = size_a + size_b;
    if size_a < size_b {
        hang(parent, size, root_a, root_b, both);
    } else {
        hang(parent, size, root_b, root_a, both);
    }
    true
}

// The label of the largest group: of equals, the one with the earliest place.
pub fn keep(parent: &[u32], size: &[u32]) -> u32
    requires { Wood parent.now size.now }
    ensures { (ls : List (ℕ × ℕ)) → Groups ls (length parent.now) (root_of (at parent.now)) → result ≡ keep_label (label ls (length parent.now)) }
{
    let mut best = 0;
    let mut top = 0;
    // One turn for each place: at most 4,096.
    for k in 0..parent.len() as u32 {
        let r = root_of(parent, k);
        let s = size[r as usize];
        if top < s {
            top = s;
            best = k;
        }
    }
    best
}

// What stands at r, or k where nothing does, which is then put there. NONE is nothing: the words later hold goals (split_island), and an Option takes two words.
fn lead(first: &mut [u32], r: u32, k: u32) -> u32
    requires { r < length first.old }
    ensures { Led first.old first.new r k result }
{
    let j = r as usize;
    if first[j] == NONE {
        first[j] = k;
    }
    first[j]
}

// The labels that the forest gives. first is scratch: at a root, the first place of its tree.
pub fn name(parent: &[u32], first: &mut [u32], labels: &mut [u32])
    requires { NameReady parent.now first.old labels.old }
    ensures { (ls : List (ℕ × ℕ)) → Groups ls (length parent.now) (root_of (at parent.now)) → labels.new ≡ label ls (length parent.now) }
{
    first.fill(NONE);
    // One turn for each place: at most 4,096.
    for (i, label) in labels.iter_mut().enumerate() {
        let k = i as u32;
        let r = root_of(parent, k);
        *label = lead(first, r, k);
    }
}
