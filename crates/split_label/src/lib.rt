// The components of an island: a label for each of its bodies, read from the tables.
#![tactic(auto)]

ghost use Rattle.std.specs.Prelude.{◌≡◌, ◌≢◌, [], ◌∷◌, ℕ, ◌+◌, ◌≤◌, ◌<◌, length, MatchOption};
ghost use Rattle.list_in_table.specs.Rules.{none};
ghost use Rattle.def_kinds.specs.Choice.{pick};
ghost use Rattle.def_state.specs.Split.{node_of};
ghost use Rattle.table_meaning.specs.Layout.{tables, extents, table_of, table_span, chain_in};
ghost use Rattle.table_meaning.specs.Decode.{world_of};
ghost use Rattle.table_meaning.specs.Sound.{Sound};
ghost use Rattle.core_laws.specs.Steps.{handle};
ghost use Rattle.split_forest.specs.Forest.{at};
ghost use Rattle.split_label.specs.Ends.{pair_at, pairs_in, pair_ends, Goes, Over, Walks};
ghost use Rattle.split_label.specs.Labelled.{Ready, Labelled};

use def_kinds::{Handle, Sizes};
use table_meaning::{Table, word};

// How many components an island has, and the label of the one that keeps its number.
#[derive(Clone, Copy)]
pub struct Shape {
    pub components: u32,
    pub keep: u32,
}

// One of the two kinds of link: its chain table, and where a link has its two handles: the link e at size * e + bodies of the table words.
#[derive(Clone, Copy)]
struct Links {
    chain: Table,
    words: Table,
    size: usize,
    bodies: usize,
}

impl Links {
    const JOINTS: Links = Links {
        chain: Table::Joints,
        words: Table::Keys,
        size: word::KEY,
        bodies: word::KEY_BODIES,
    };

    const CONTACTS: Links = Links {
        chain: Table::Contacts,
        words: Table::Touches,
        size: word::TOUCH,
        bodies: word::TOUCH_BODIES,
    };
}

// The place of a handle's body in the island i, where it is a member of i.
fn node_of(t: &[u32], z: Sizes, i: u32, h: Handle) -> Option<u32>
    requires { Sound z t.now × (i < (extents (tables z t.now)).islands) }
    ensures { MatchOption result (node_of (world_of z t.now) i (handle h.slot.0 h.generation) ≡ none) (λ p. (p ≡ node_of (world_of z t.now) i (handle h.slot.0 h.generation)) × (p ≢ none)) }
{
    split_move::node_at(t, z, i, h)
}

// The link whose two handles are the four words at j of the table w: where both ends are members of i, their places are joined. Says whether they were apart.
#[inline(always)]
fn join_link(
    t: &[u32],
    z: Sizes,
    w: Table,
    j: usize,
    i: u32,
    parent: &mut [u32],
    size: &mut [u32],
) -> bool
    requires { Over z t.now i parent.old size.old × (j + 4 ≤ table_span z w) }
    ensures { Goes (length parent.old) (at parent.old) (at parent.new) (at size.new) (pair_ends (world_of z t.now) i (pair_at (table_of w (tables z t.now)) j ∷ [])) (pick result 1 0) }
{
    let first = table_words::handle_at(t, z, w, j);
    let Some(a) = node_of(t, z, i, first) else {
        return false;
    };
    let second = table_words::handle_at(t, z, w, j + word::SLOT2);
    let Some(b) = node_of(t, z, i, second) else {
        return false;
    };
    split_forest::join(parent, size, a, b)
}

// Every link of this kind of the island i, from the last to the first. Gives the number of joins that did something.
// It is put in place for each of the two kinds: where the tables are known, no read asks where its table begins.
#[inline(always)]
fn join_links(
    t: &[u32],
    z: Sizes,
    links: Links,
    i: u32,
    parent: &mut [u32],
    size: &mut [u32],
) -> u32
    requires { Over z t.now i parent.old size.old × Walks z t.now links.chain links.words links.size links.bodies i }
    ensures { Goes (length parent.old) (at parent.old) (at parent.new) (at size.new) (pair_ends (world_of z t.now) i (pairs_in (chain_in z links.chain (tables z t.now)) (table_of links.words (tables z t.now)) links.size links.bodies i)) result }
{
    let count = table_words::count(t, z, links.chain, i);
    let mut link = table_words::last(t, z, links.chain, i);
    let mut joins = 0;
    // One turn for each link of the list: as many as the list's count, at most as many as the table has room for.
    // Counted down: the invariant is about the links that are left.
    for _left in (0..count).rev() {
        let at = links.size * (link as usize) + links.bodies;
        if join_link(t, z, links.words, at, i, parent, size) {
            joins += 1;
        }
        link = table_words::get(t, z, links.chain, word::CELL * (link as usize) + word::PREV);
    }
    joins
}

// The slices are lent one by one, as split_forest says.
// The labels of the bodies of the live island i, the number of its components, and the label of the largest. Each slice has one word for each body.
pub fn label_island(
    t: &[u32],
    z: Sizes,
    i: u32,
    parent: &mut [u32],
    size: &mut [u32],
    first: &mut [u32],
    labels: &mut [u32],
) -> Shape
    requires { Ready z t.now i parent.old size.old first.old labels.old }
    ensures { Labelled z t.now i labels.new result }
{
    split_forest::clear(parent, size);
    let joint_joins = join_links(t, z, Links::JOINTS, i, parent, size);
    let contact_joins = join_links(t, z, Links::CONTACTS, i, parent, size);
    split_forest::name(parent, first, labels);
    let keep = split_forest::keep(parent, size);
    // At most 4,096.
    let bodies = parent.len() as u32;
    let components = bodies - joint_joins - contact_joins;
    Shape { components, keep }
}
