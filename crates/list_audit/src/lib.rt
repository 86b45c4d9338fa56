// Is a chain table well formed? A test of each element and each list by its neighbours alone. Where an index is next, what it asks is a guard before it.
// NONE, no element and no list, is a word of the tables that the host lends (the C interface), so it is compared as it stands.
#![tactic(auto)]

ghost use Rattle.std.specs.Prelude.{◌≡◌, ◌≢◌, ◌⊎◌, ℕ, ◌+◌, ◌*◌, ◌<◌, ◌≤◌, length, get_or};
ghost use Rattle.list_in_table.specs.Rules.{none, View, Is, Blank, First, After, Final, Before, Held, Empty, Full};
ghost use Rattle.list_in_table.specs.Table.{view, Room, Wf};

use def_kinds::NONE;
use list_in_table::{CELL, END, LAST, NEXT, PLACE, PREV};

// Where a chain table's elements and its lists begin, and how many elements and lists are in use.
// The words are lent beside it: where a struct lent them too, each promise would say x.entry.t.now for t.now.
#[derive(Clone, Copy)]
struct Extent {
    base: usize,
    ends: usize,
    n: u32,
    m: u32,
}

// Is what stands before e right?
fn is_back(t: &[u32], x: Extent, e: u32) -> bool
    requires { Room t.now x.base x.ends x.n x.m × (e < x.n) }
    ensures { Is result (First x.n x.m (view t.now x.base x.ends) e ⊎ After x.n x.m (view t.now x.base x.ends) e) }
{
    let cell = x.base + CELL * (e as usize);
    let list = t[cell];
    let place = t[cell + PLACE];
    let prev = t[cell + PREV];
    if prev == NONE {
        return place == 0;
    }
    if prev >= x.n {
        return false;
    }
    let prev_cell = x.base + CELL * (prev as usize);
    t[prev_cell] == list
        && t[prev_cell + PLACE] as usize + 1 == place as usize
        && t[prev_cell + NEXT] == e
}

// Is what stands after e right?
fn is_fore(t: &[u32], x: Extent, e: u32) -> bool
    requires { Room t.now x.base x.ends x.n x.m × (e < x.n) × ((view t.now x.base x.ends).home e < x.m) }
    ensures { Is result (Final x.n x.m (view t.now x.base x.ends) e ⊎ Before x.n x.m (view t.now x.base x.ends) e) }
{
    let cell = x.base + CELL * (e as usize);
    let list = t[cell];
    let place = t[cell + PLACE];
    let next = t[cell + NEXT];
    if next == NONE {
        let end = x.ends + END * (list as usize);
        return t[end] as usize == place as usize + 1 && t[end + LAST] == e;
    }
    if next >= x.n {
        return false;
    }
    let next_cell = x.base + CELL * (next as usize);
    t[next_cell] == list
        && t[next_cell + PLACE] as usize == place as usize + 1
        && t[next_cell + PREV] == e
}

// Is the element e right?
fn is_elem(t: &[u32], x: Extent, e: u32) -> bool
    requires { Room t.now x.base x.ends x.n x.m × (e < x.n) }
    ensures { Is result (Blank x.n x.m (view t.now x.base x.ends) e ⊎ Held x.n x.m (view t.now x.base x.ends) e) }
{
    let cell = x.base + CELL * (e as usize);
    let list = t[cell];
    let place = t[cell + PLACE];
    let prev = t[cell + PREV];
    let next = t[cell + NEXT];
    if list == NONE {
        return place == NONE && prev == NONE && next == NONE;
    }
    if list >= x.m {
        return false;
    }
    let end = x.ends + END * (list as usize);
    place < t[end] && is_back(t, x, e) && is_fore(t, x, e)
}

// Is the list i right?
fn is_list(t: &[u32], x: Extent, i: u32) -> bool
    requires { Room t.now x.base x.ends x.n x.m × (i < x.m) }
    ensures { Is result (Empty x.n x.m (view t.now x.base x.ends) i ⊎ Full x.n x.m (view t.now x.base x.ends) i) }
{
    let end = x.ends + END * (i as usize);
    let count = t[end];
    let last = t[end + LAST];
    if last == NONE {
        return count == 0;
    }
    if last >= x.n {
        return false;
    }
    let last_cell = x.base + CELL * (last as usize);
    t[last_cell] == i && t[last_cell + PLACE] as usize + 1 == count as usize
}

// Do all the rules hold of the words of t? One turn for each element in use, then one for each list in use.
pub fn audit(t: &[u32], base: usize, ends: usize, n: u32, m: u32) -> bool
    requires { Room t.now base ends n m }
    ensures { Is result (Wf t.now base ends n m) }
{
    let x = Extent { base, ends, n, m };
    (0..n).all(|e| is_elem(t, x, e)) && (0..m).all(|i| is_list(t, x, i))
}
