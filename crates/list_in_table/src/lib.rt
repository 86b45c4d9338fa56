// Lists through a table of words: an element is put last, or taken out by swap removal.
// NONE, no element and no list, is a word of the tables that the host lends (the C interface), so it is compared as it stands.
#![tactic(auto)]

ghost use Rattle.std.specs.Prelude.{◌≡◌, ◌≢◌, ℕ, ◌+◌, ◌*◌, ◌<◌, ◌≤◌, length, get_or};
ghost use Rattle.list_in_table.specs.Rules.{none};
ghost use Rattle.list_in_table.specs.Table.{next_set, pushed, removed, PushReady, RemoveReady};

use def_kinds::NONE;

// An element has four words: its home (which list it is in), its place there, the element before it and the one after it.
pub const CELL: usize = 4;

pub const PLACE: usize = 1;

pub const PREV: usize = 2;

pub const NEXT: usize = 3;

// A list has two: how many elements it has, and the last of them.
pub const END: usize = 2;

pub const LAST: usize = 1;

// Makes v the next of the element k, or does nothing where k is NONE.
pub fn set_next(t: &mut [u32], base: usize, k: u32, v: u32)
    requires { k ≢ none → base + 4 * k + 3 < length t.old }
    ensures { t.new ≡ next_set t.old base k v }
{
    if k != NONE {
        let cell = base + CELL * (k as usize);
        t[cell + NEXT] = v;
    }
}

// Where a table's elements and its lists begin stay two numbers, here and above: who calls has base 0, and would write a struct's name and both its fields for 0, ends.
// Puts the element e, which is in no list, last in the list i.
pub fn push_last(t: &mut [u32], base: usize, ends: usize, i: u32, e: u32)
    requires { PushReady t.old base ends i e }
    ensures { t.new ≡ pushed t.old base ends i e }
{
    let cell = base + CELL * (e as usize);
    let end = ends + END * (i as usize);
    let count = t[end];
    let last = t[end + LAST];
    t[cell] = i;
    t[cell + PLACE] = count;
    t[cell + PREV] = last;
    t[cell + NEXT] = NONE;
    t[end] = count + 1;
    t[end + LAST] = e;
    set_next(t, base, last, e);
}

// Takes the element e out of its list, whose last element takes its place.
pub fn swap_remove(t: &mut [u32], base: usize, ends: usize, e: u32)
    requires { RemoveReady t.old base ends e }
    ensures { t.new ≡ removed t.old base ends e }
{
    let cell = base + CELL * (e as usize);
    let list = t[cell];
    let place = t[cell + PLACE];
    let prev = t[cell + PREV];
    let next = t[cell + NEXT];
    let end = ends + END * (list as usize);
    let count = t[end];
    let last = t[end + LAST];
    let last_cell = base + CELL * (last as usize);
    let before_last = t[last_cell + PREV];
    t[cell] = NONE;
    t[cell + PLACE] = NONE;
    t[cell + PREV] = NONE;
    t[cell + NEXT] = NONE;
    t[end] = count - 1;
    if last == e {
        t[end + LAST] = prev;
        set_next(t, base, prev, NONE);
        return;
    }
    t[last_cell + PLACE] = place;
    t[last_cell + PREV] = prev;
    set_next(t, base, prev, last);
    if before_last == e {
        return;
    }
    let next_cell = base + CELL * (next as usize);
    let before_cell = base + CELL * (before_last as usize);
    t[last_cell + NEXT] = next;
    t[next_cell + PREV] = last;
    t[before_cell + NEXT] = NONE;
    t[end + LAST] = before_last;
}
