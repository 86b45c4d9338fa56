// One list of a chain table is put behind another (merge).
#![tactic(auto)]

ghost use Rattle.std.specs.Prelude.{◌≡◌, ◌+◌, ◌*◌, ◌<◌};
ghost use Rattle.list_splice.specs.Splice.{spliced, SpliceReady};

use def_kinds::NONE;
use list_in_table::{CELL, END, LAST, PLACE, PREV};

// Puts the list small behind the list big, and empties it.
pub fn splice(t: &mut [u32], base: usize, ends: usize, big: u32, small: u32)
    requires { SpliceReady t.old base ends big small }
    ensures { t.new ≡ spliced t.old base ends big small }
{
    let big_end = ends + END * (big as usize);
    let small_end = ends + END * (small as usize);
    let big_count = t[big_end];
    let big_last = t[big_end + LAST];
    let small_count = t[small_end];
    let small_last = t[small_end + LAST];
    if small_count == 0 {
        return;
    }
    let mut element = small_last;
    // NONE until the first turn, of which there is one at the least.
    let mut front = NONE;
    // One turn for each element of small, from the last to the first: left is its place in small.
    for left in (0..small_count).rev() {
        let cell = base + CELL * (element as usize);
        let before = t[cell + PREV];
        t[cell] = big;
        t[cell + PLACE] = big_count + left;
        front = element;
        element = before;
    }
    let cell = base + CELL * (front as usize);
    t[cell + PREV] = big_last;
    list_in_table::set_next(t, base, big_last, front);
    t[big_end] = big_count + small_count;
    t[big_end + LAST] = small_last;
    t[small_end] = 0;
    t[small_end + LAST] = NONE;
}
