// Finish: which of the observed islands may sleep, written to an output that the host lends, and the scan closes; on sound tables.
#![tactic(auto)]

ghost use Rattle.std.specs.Prelude.{◌≡◌, true, ◌<◌, ◌≤◌, length};
ghost use Rattle.std.specs.Result.{result_unwrap_or};
ghost use Rattle.def_kinds.specs.Answers.{answer_of};
ghost use Rattle.def_state.specs.Scan.{sleepable};
ghost use Rattle.table_meaning.specs.Layout.{tables, extents};
ghost use Rattle.table_meaning.specs.Decode.{world_of, observed_at};
ghost use Rattle.table_meaning.specs.Sound.{Sound};
ghost use Rattle.core_finish.specs.Restful.{Wrote, restful};
ghost use Rattle.core_finish.specs.Listing.{Finishes};

use def_kinds::{Refusal, Sizes};
use table_meaning::{Table, word};

// May the observed island i sleep: live, awake, always eligible, with count 0 or at most one body?
fn may_sleep(t: &[u32], z: Sizes, i: u32) -> bool
    requires { Sound z t.now × (i < (extents (tables z t.now)).islands) }
    ensures { result ≡ sleepable (world_of z t.now) (observed_at (tables z t.now).fit i) }
{
    let fit = table_words::get(t, z, Table::Fit, i as usize);
    let bodies = table_words::count(t, z, Table::Members, i);
    let asleep = table_words::get(t, z, Table::Rows, word::ROW * (i as usize) + word::ASLEEP);
    let removals = table_words::get(t, z, Table::Rows, word::ROW * (i as usize));
    fit == 1 && bodies != 0 && asleep != 1 && (removals == 0 || bodies <= 1)
}

// How many of the observed islands may sleep.
fn count_restful(t: &[u32], z: Sizes) -> u32
    requires { Sound z t.now }
    ensures { result ≡ length (restful z t.now) }
{
    let waiting = table_words::count(t, z, Table::Scan, 0);
    let mut island = table_words::last(t, z, Table::Scan, 0);
    let mut found: u32 = 0;
    // One turn for each island in the scan's list, from the last to the first: at most as many as there are islands.
    // The walk goes by the words of the tables from one island to the one before it: the invariant is about how many are left.
    for _ in 0..waiting {
        if may_sleep(t, z, island) {
            found += 1;
        }
        island = table_words::get(
            t,
            z,
            Table::Scan,
            word::CELL * (island as usize) + word::PREV,
        );
    }
    found
}

// The island e is written before the place k of out, if it may sleep; the place of what comes before it.
fn write_one(t: &[u32], z: Sizes, out: &mut [u32], e: u32, k: usize) -> usize
    requires { Sound z t.now × (e < (extents (tables z t.now)).islands) × (sleepable (world_of z t.now) (observed_at (tables z t.now).fit e) ≡ true → (0 < k) × (k ≤ length out.old)) }
    ensures { Wrote z t.now e k result out.old out.new }
{
    if may_sleep(t, z, e) {
        out[k - 1] = e;
        k - 1
    } else {
        k
    }
}

// The islands that may sleep, of which there are as many as out has words, written to it from the last to the first.
fn write_restful(t: &[u32], z: Sizes, out: &mut [u32])
    requires { Sound z t.now × (length out.old ≡ length (restful z t.now)) }
    ensures { out.new ≡ restful z t.now }
{
    let waiting = table_words::count(t, z, Table::Scan, 0);
    let mut island = table_words::last(t, z, Table::Scan, 0);
    let mut front = out.len();
    // One turn for each island in the scan's list, from the last to the first: at most as many as there are islands.
    for _ in 0..waiting {
        front = write_one(t, z, out, island, front);
        island = table_words::get(
            t,
            z,
            Table::Scan,
            word::CELL * (island as usize) + word::PREV,
        );
    }
}

// finish_sleep_scan, on sound tables: how many islands are listed.
pub fn finish_on(t: &mut [u32], z: Sizes, out: &mut [u32]) -> Result<u32, Refusal>
    requires { Sound z t.old }
    ensures { Finishes z t.old out.old (answer_of result) (result_unwrap_or result 0) t.new out.new }
{
    let scan = core_scan::scan_of(t, z);
    if !scan.open {
        return Err(Refusal::NoScan);
    }
    let n = count_restful(t, z);
    if (n as usize) > out.len() {
        return Err(Refusal::TooShort);
    }
    write_restful(t, z, &mut out[..n as usize]);
    core_scan::clear_scan(t, z);
    core_scan::keep_scan(t, z, scan.close());
    Ok(n)
}
