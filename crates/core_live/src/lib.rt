// What the core asks of an island's number, on sound tables.
#![tactic(auto)]

ghost use Rattle.std.specs.Prelude.{◌≡◌, ◌≢◌, length, get_or, MatchOption};
ghost use Rattle.table_meaning.specs.Layout.{tables, total};
ghost use Rattle.table_meaning.specs.Sound.{Sound};
ghost use Rattle.core_laws.specs.Leaves.{Unpended};
ghost use Rattle.core_live.specs.Live.{LiveIs};

use def_kinds::Sizes;
use table_meaning::{Table, word};

// Is the number that of a live island?
pub fn is_live(t: &[u32], z: Sizes, i: u32) -> bool
    requires { Sound z t.now }
    ensures { LiveIs z t.now i result }
{
    i < table_words::get(t, z, Table::Head, word::ISLANDS_USED)
        && table_words::count(t, z, Table::Members, i) != 0
}

// The island whose split is pending, where one is.
pub fn pending(t: &[u32], z: Sizes) -> Option<u32>
    requires { length t.now ≡ total z }
    ensures { MatchOption result (get_or (tables z t.now).head 5 0 ≢ 1) (λ i. (get_or (tables z t.now).head 5 0 ≡ 1) × (i ≡ get_or (tables z t.now).head 6 0)) }
{
    // A flag is a word of the head, which C reads.
    if table_words::get(t, z, Table::Head, word::IS_PENDING) == 1 {
        Some(table_words::get(t, z, Table::Head, word::PENDING))
    } else {
        None
    }
}

// A pending split of the island i is cleared.
pub fn clear_pending_split_of(t: &mut [u32], z: Sizes, i: u32)
    requires { Sound z t.old }
    ensures { Unpended z i t.old t.new }
{
    if pending(t, z) == Some(i) {
        table_words::set_all(t, z, Table::Head, word::IS_PENDING, &[0, 0]);
    }
}
