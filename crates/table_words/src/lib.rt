// The words of the tables by the name of their table, at any sizes; and the lists of chain tables by name.
#![tactic(auto)]

ghost use Rattle.std.specs.Prelude.{◌≡◌, ℕ, ◌+◌, ◌*◌, ◌<◌, ◌≤◌, length, get_or, set};
ghost use Rattle.list_in_table.specs.Rules.{Is};
ghost use Rattle.list_in_table.specs.Table.{pushed, removed, PushReady, RemoveReady, Wf};
ghost use Rattle.list_in_table.specs.Word.{numbered, writes};
ghost use Rattle.list_splice.specs.Splice.{spliced, SpliceReady};
ghost use Rattle.list_in_buffer.specs.Part.{Put};
ghost use Rattle.table_meaning.specs.Keys.{key_in};
ghost use Rattle.table_meaning.specs.Layout.{tables, total, table_at, table_span, table_of, room, list_room, chain_in};

use def_kinds::{Handle, Sizes, Slot};
use list_in_buffer::Part;
use table_meaning::{KeyWords, Table, word};

// How many words a buffer for these sizes has.
pub fn buffer_long(z: Sizes) -> usize
    ensures { result ≡ total z }
{
    let n = z.slots as usize;
    let m = z.islands as usize;
    let e = z.edges as usize;
    let j = z.joints as usize;
    let l = z.journal as usize;
    15 + 9 * n + 18 * m + 8 * e + 16 * j + 4 * l
}

// Where a table begins.
#[inline(always)]
// The one place that says where each table begins; below, how long it is and where its lists stand.
pub fn table_at(z: Sizes, k: Table) -> usize
    ensures { result ≡ table_at z k }
{
    let n = z.slots as usize;
    let m = z.islands as usize;
    let e = z.edges as usize;
    let j = z.joints as usize;
    let l = z.journal as usize;
    match k {
        Table::Head => 0,
        Table::Slots => 9,
        Table::Members => 9 + 5 * n,
        Table::Rows => 9 + 9 * n + 2 * m,
        Table::Freed => 9 + 9 * n + 5 * m,
        Table::Contacts => 11 + 9 * n + 9 * m,
        Table::Touches => 11 + 9 * n + 11 * m + 4 * e,
        Table::Joints => 11 + 9 * n + 11 * m + 8 * e,
        Table::Keys => 11 + 9 * n + 13 * m + 8 * e + 4 * j,
        Table::Spare => 11 + 9 * n + 13 * m + 8 * e + 12 * j,
        Table::Journal => 13 + 9 * n + 13 * m + 8 * e + 16 * j,
        Table::Scan => 13 + 9 * n + 13 * m + 8 * e + 16 * j + 4 * l,
        Table::Fit => 15 + 9 * n + 17 * m + 8 * e + 16 * j + 4 * l,
    }
}

// How many words it has.
#[inline(always)]
pub fn table_long(z: Sizes, k: Table) -> usize
    ensures { result ≡ table_span z k }
{
    let n = z.slots as usize;
    let m = z.islands as usize;
    let e = z.edges as usize;
    let j = z.joints as usize;
    let l = z.journal as usize;
    match k {
        Table::Head => 9,
        Table::Slots => 5 * n,
        Table::Members => 4 * n + 2 * m,
        Table::Rows => 3 * m,
        Table::Freed => 4 * m + 2,
        Table::Contacts => 4 * e + 2 * m,
        Table::Touches => 4 * e,
        Table::Joints => 4 * j + 2 * m,
        Table::Keys => 8 * j,
        Table::Spare => 4 * j + 2,
        Table::Journal => 4 * l,
        Table::Scan => 4 * m + 2,
        Table::Fit => m,
    }
}

// Where a chain table's lists begin in it: behind four words for each element that it has room for.
#[inline(always)]
pub fn ends_at(z: Sizes, k: Table) -> usize
    ensures { result ≡ 4 * room z k }
{
    let n = z.slots as usize;
    let m = z.islands as usize;
    let e = z.edges as usize;
    let j = z.joints as usize;
    match k {
        Table::Members => 4 * n,
        Table::Freed => 4 * m,
        Table::Contacts => 4 * e,
        Table::Joints => 4 * j,
        Table::Spare => 4 * j,
        Table::Scan => 4 * m,
        Table::Head => 0,
        Table::Slots => 0,
        Table::Rows => 0,
        Table::Touches => 0,
        Table::Keys => 0,
        Table::Journal => 0,
        Table::Fit => 0,
    }
}

// Where a table lies.
#[inline]
pub fn part_of(z: Sizes, k: Table) -> Part
    ensures { (result.at ≡ table_at z k) × (result.long ≡ table_span z k) }
{
    Part {
        at: table_at(z, k),
        long: table_long(z, k),
    }
}

// A word of a table.
#[inline(always)]
pub fn get(t: &[u32], z: Sizes, k: Table, j: usize) -> u32
    requires { (length t.now ≡ total z) × (j < table_span z k) }
    ensures { (result ≡ get_or (table_of k (tables z t.now)) j 0) × (result ≤ 4294967295) }
{
    let p = part_of(z, k);
    list_in_buffer::get_in(t, p, j)
}

// The handle in the two words from j on.
#[inline(always)]
pub fn handle_at(t: &[u32], z: Sizes, k: Table, j: usize) -> Handle
    requires { (length t.now ≡ total z) × (j + 1 < table_span z k) }
    ensures { (result.slot.0 ≡ get_or (table_of k (tables z t.now)) j 0) × (result.generation ≡ get_or (table_of k (tables z t.now)) (j + 1) 0) }
{
    let slot = Slot(get(t, z, k, j));
    let generation = get(t, z, k, j + 1);
    Handle { slot, generation }
}

// The key at the joint place p.
#[inline(always)]
pub fn key_at(t: &[u32], z: Sizes, p: u32) -> KeyWords
    requires { (length t.now ≡ total z) × (p < z.joints) }
    ensures { result ≡ key_in (tables z t.now).keys p }
{
    let at = word::KEY * (p as usize);
    let kind = get(t, z, Table::Keys, at);
    let first = get(t, z, Table::Keys, at + word::KEY_FIRST);
    let second = get(t, z, Table::Keys, at + word::KEY_SECOND);
    let third = get(t, z, Table::Keys, at + word::KEY_THIRD);
    KeyWords {
        kind,
        first,
        second,
        third,
    }
}

// The word j of a table becomes v.
#[inline(always)]
pub fn set(t: &mut [u32], z: Sizes, k: Table, j: usize, v: u32)
    requires { (length t.old ≡ total z) × (j < table_span z k) }
    ensures { Put (table_at z k) (table_span z k) t.old t.new (set (table_of k (tables z t.old)) j v) }
{
    let p = part_of(z, k);
    list_in_buffer::set_in(t, p, j, v);
}

// The words from j on become those of `words`.
#[inline(always)]
pub fn set_all(t: &mut [u32], z: Sizes, k: Table, j: usize, words: &[u32])
    requires { (length t.old ≡ total z) × (j + length words.now ≤ table_span z k) }
    ensures { Put (table_at z k) (table_span z k) t.old t.new (writes (table_of k (tables z t.old)) (numbered j words.now)) }
{
    // One turn for each of the words.
    for (i, word) in words.iter().enumerate() {
        set(t, z, k, j + i, *word);
    }
}

// ---- chain tables: an element's home, a list's count and its last element

#[inline(always)]
pub fn home(t: &[u32], z: Sizes, k: Table, e: u32) -> u32
    requires { (length t.now ≡ total z) × (e < room z k) }
    ensures { (result ≡ (chain_in z k (tables z t.now)).home e) × (result ≤ 4294967295) }
{
    let p = part_of(z, k);
    list_in_buffer::get_in(t, p, 4 * (e as usize))
}

#[inline(always)]
pub fn count(t: &[u32], z: Sizes, k: Table, i: u32) -> u32
    requires { (length t.now ≡ total z) × (i < list_room z k) }
    ensures { (result ≡ (chain_in z k (tables z t.now)).count i) × (result ≤ 4294967295) }
{
    let p = part_of(z, k);
    let b = ends_at(z, k);
    list_in_buffer::get_in(t, p, b + 2 * (i as usize))
}

#[inline(always)]
pub fn last(t: &[u32], z: Sizes, k: Table, i: u32) -> u32
    requires { (length t.now ≡ total z) × (i < list_room z k) }
    ensures { (result ≡ (chain_in z k (tables z t.now)).last i) × (result ≤ 4294967295) }
{
    let p = part_of(z, k);
    let b = ends_at(z, k);
    list_in_buffer::get_in(t, p, b + 2 * (i as usize) + 1)
}

// The element e, which is in no list, is put last in the list i.
#[inline]
pub fn push(t: &mut [u32], z: Sizes, k: Table, i: u32, e: u32)
    requires { (length t.old ≡ total z) × PushReady (table_of k (tables z t.old)) 0 (4 * room z k) i e }
    ensures { Put (table_at z k) (table_span z k) t.old t.new (pushed (table_of k (tables z t.old)) 0 (4 * room z k) i e) }
{
    let p = part_of(z, k);
    let b = ends_at(z, k);
    list_in_buffer::push_in(t, p, b, i, e);
}

// The element e is taken out of its list, whose last element takes its place.
#[inline]
pub fn remove(t: &mut [u32], z: Sizes, k: Table, e: u32)
    requires { (length t.old ≡ total z) × RemoveReady (table_of k (tables z t.old)) 0 (4 * room z k) e }
    ensures { Put (table_at z k) (table_span z k) t.old t.new (removed (table_of k (tables z t.old)) 0 (4 * room z k) e) }
{
    let p = part_of(z, k);
    let b = ends_at(z, k);
    list_in_buffer::remove_in(t, p, b, e);
}

// The list small is put behind the list big, and is empty then. The work is that of small.
pub fn splice(t: &mut [u32], z: Sizes, k: Table, big: u32, small: u32)
    requires { (length t.old ≡ total z) × SpliceReady (table_of k (tables z t.old)) 0 (4 * room z k) big small }
    ensures { Put (table_at z k) (table_span z k) t.old t.new (spliced (table_of k (tables z t.old)) 0 (4 * room z k) big small) }
{
    let p = part_of(z, k);
    let b = ends_at(z, k);
    list_in_buffer::splice_in(t, p, b, big, small);
}

// Do the rules of a chain table hold of its first n elements and m lists?
pub fn chains_hold(t: &[u32], z: Sizes, k: Table, n: u32, m: u32) -> bool
    requires { (length t.now ≡ total z) × (n ≤ room z k) × (m ≤ list_room z k) }
    ensures { Is result (Wf (table_of k (tables z t.now)) 0 (4 * room z k) n m) }
{
    let p = part_of(z, k);
    let b = ends_at(z, k);
    list_in_buffer::audit_in(t, p, b, n, m)
}
