// Merge of two islands on sound tables: the lesser one goes into the greater.
#![tactic(auto)]

ghost use Rattle.std.specs.Prelude.{◌≡◌, ◌≢◌, ◌+◌, ◌*◌, ◌<◌, length};
ghost use Rattle.list_in_buffer.specs.Part.{Put};
ghost use Rattle.def_state.specs.Links.{add_counts};
ghost use Rattle.table_meaning.specs.Layout.{tables, total, rows_at, rows_span};
ghost use Rattle.core_laws.specs.Merging.{both_asleep, rows_mixed, TwoLive, Absorbed, MergeDone};

use def_kinds::Sizes;
use table_meaning::{Table, word};

// Counts add, and stop at the largest number.
// The name of the definition.
pub fn add_counts(a: u32, b: u32) -> u32
    ensures { result ≡ add_counts a b }
{
    a.saturating_add(b)
}

// The sleeping word of two islands in one: asleep only if both sleep.
fn both_asleep(a: u32, b: u32) -> u32
    ensures { result ≡ both_asleep a b }
{
    u32::from(a == 1 && b == 1)
}

// The row of big gets the count and the sleeping of both, and keeps its denial; the row of small is zeroed.
fn mix_rows(t: &mut [u32], z: Sizes, big: u32, small: u32)
    requires { (length t.old ≡ total z) × (big < z.islands) × (small < z.islands) }
    ensures { Put (rows_at z) (rows_span z) t.old t.new (rows_mixed (tables z t.old).rows big small) }
{
    let big_row = word::ROW * (big as usize);
    let small_row = word::ROW * (small as usize);
    let big_count = table_words::get(t, z, Table::Rows, big_row);
    let small_count = table_words::get(t, z, Table::Rows, small_row);
    let big_asleep = table_words::get(t, z, Table::Rows, big_row + word::ASLEEP);
    let small_asleep = table_words::get(t, z, Table::Rows, small_row + word::ASLEEP);
    let count = add_counts(big_count, small_count);
    let asleep = both_asleep(big_asleep, small_asleep);
    table_words::set(t, z, Table::Rows, big_row, count);
    table_words::set(t, z, Table::Rows, big_row + word::ASLEEP, asleep);
    table_words::set_all(t, z, Table::Rows, small_row, &[0, 0, 0]);
}

// The island small goes into big: its links and bodies are put behind big's, in order; counts add, sleeping only if both slept, and its denial is lost. Its number is freed, and a pending split of it is cleared. The work is that of small.
pub fn absorb(t: &mut [u32], z: Sizes, big: u32, small: u32)
    requires { TwoLive z big small t.old × (big ≢ small) }
    ensures { Absorbed z big small t.old t.new }
{
    table_words::splice(t, z, Table::Contacts, big, small);
    table_words::splice(t, z, Table::Joints, big, small);
    table_words::splice(t, z, Table::Members, big, small);
    mix_rows(t, z, big, small);
    table_words::push(t, z, Table::Freed, 0, small);
    core_live::clear_pending_split_of(t, z, small);
}

// merge_islands: more bodies survives; equal, the first. The answer is the island that is left.
pub fn merge_islands(t: &mut [u32], z: Sizes, a: u32, b: u32) -> u32
    requires { TwoLive z a b t.old }
    ensures { MergeDone z a b t.old result t.new }
{
    if a == b {
        return a;
    }
    let bodies_a = table_words::count(t, z, Table::Members, a);
    let bodies_b = table_words::count(t, z, Table::Members, b);
    if bodies_a >= bodies_b {
        absorb(t, z, a, b);
        a
    } else {
        absorb(t, z, b, a);
        b
    }
}
