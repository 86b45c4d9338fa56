// An element of a chain table hands its place to another (renumber).
// NONE, no element and no list, is a word of the tables that the host lends (the C interface), so it is compared as it stands.
#![tactic(auto)]

ghost use Rattle.std.specs.Prelude.{◌≡◌, ◌≢◌, ℕ, ◌+◌, ◌*◌, ◌<◌, ◌≤◌, length, get_or};
ghost use Rattle.list_in_table.specs.Rules.{none};
ghost use Rattle.list_rename.specs.Renamed.{back_set, renamed, RenameReady};

use def_kinds::NONE;
use list_in_table::{CELL, END, LAST, NEXT, PLACE, PREV};

// Makes v the element before x, or the last of the list i where x is NONE.
pub fn set_back(t: &mut [u32], base: usize, ends: usize, i: u32, x: u32, v: u32)
    requires { (x ≡ none → ends + 2 * i + 1 < length t.old) × (x ≢ none → base + 4 * x + 2 < length t.old) }
    ensures { t.new ≡ back_set t.old base ends i x v }
{
    if x == NONE {
        t[ends + END * (i as usize) + LAST] = v;
    } else {
        t[base + CELL * (x as usize) + PREV] = v;
    }
}

// The element from, the last in use, hands its place in its list to the element to, which is in no list. The words of from stay.
pub fn rename(t: &mut [u32], base: usize, ends: usize, from: u32, to: u32)
    requires { RenameReady t.old base ends from to }
    ensures { t.new ≡ renamed t.old base ends from to }
{
    let from_cell = base + CELL * (from as usize);
    let to_cell = base + CELL * (to as usize);
    let list = t[from_cell];
    let place = t[from_cell + PLACE];
    let prev = t[from_cell + PREV];
    let next = t[from_cell + NEXT];
    t[to_cell] = list;
    t[to_cell + PLACE] = place;
    t[to_cell + PREV] = prev;
    t[to_cell + NEXT] = next;
    list_in_table::set_next(t, base, prev, to);
    set_back(t, base, ends, list, next, to);
}
