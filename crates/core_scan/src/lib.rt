// The sleep scan on sound tables: begin, and observe. What finish lists is core_finish; marking asleep and waking is core_sleep.
#![tactic(auto)]

ghost use Rattle.std.specs.Prelude.{◌<◌};
ghost use Rattle.def_state.specs.Scan.{begin_sleep_scan, observe_body_for_sleep};
ghost use Rattle.table_meaning.specs.Layout.{tables, scan_in};
ghost use Rattle.table_meaning.specs.Sound.{Sound};
ghost use Rattle.table_meaning.specs.Does.{Does};
ghost use Rattle.core_laws.specs.Steps.{Steps};
ghost use Rattle.core_scan.specs.Scanning.{stamped, noting, ScanIs, Fitting, Forgot, Forgotten, Unheard, Heard};

use def_kinds::{Answer, NONE, Outcome, Refusal, Scan, Sizes};
use table_meaning::{Table, word};

// The scan that the tables hold.
pub fn scan_of(t: &[u32], z: Sizes) -> Scan
    requires { Sound z t.now }
    ensures { ScanIs z t.now result }
{
    let stamp = table_words::get(t, z, Table::Head, word::STAMP);
    // A flag is a word of the head, which C reads.
    let open = table_words::get(t, z, Table::Head, word::SCAN_OPEN) == 1;
    let waiting = table_words::count(t, z, Table::Scan, 0);
    Scan {
        stamp,
        open,
        waiting,
    }
}

// The scan is kept in the tables: its stamp, and whether it is open. How many islands wait is the list's own count.
pub fn keep_scan(t: &mut [u32], z: Sizes, scan: Scan)
    requires { Fitting z t.old scan }
    ensures { Steps z (stamped scan.stamp scan.open) t.old t.new }
{
    let open = u32::from(scan.open);
    table_words::set_all(t, z, Table::Head, word::STAMP, &[scan.stamp, open]);
}

// The island that was observed last is forgotten.
fn forget_last(t: &mut [u32], z: Sizes)
    requires { Sound z t.old × (0 < (scan_in z (tables z t.old)).count 0) }
    ensures { Forgot z t.old t.new }
{
    let last = table_words::last(t, z, Table::Scan, 0);
    table_words::remove(t, z, Table::Scan, last);
    table_words::set(t, z, Table::Fit, last as usize, 0);
}

// All observations are forgotten.
pub fn clear_scan(t: &mut [u32], z: Sizes)
    requires { Sound z t.old }
    ensures { Forgotten z t.old t.new }
{
    let waiting = table_words::count(t, z, Table::Scan, 0);
    // One turn for each island in the scan's list: at most as many as there are islands.
    for _ in 0..waiting {
        forget_last(t, z);
    }
}

// begin_sleep_scan, on sound tables.
pub fn begin_on(t: &mut [u32], z: Sizes) -> Answer
    requires { Sound z t.old }
    ensures { Does z begin_sleep_scan t.old result t.new }
{
    clear_scan(t, z);
    let opened = scan_of(t, z).begin();
    keep_scan(t, z, opened);
    Ok(Outcome::Done)
}

// The first observation of the island i.
fn observe_first(t: &mut [u32], z: Sizes, i: u32, eligible: bool)
    requires { Unheard z t.old i }
    ensures { Steps z (noting i eligible) t.old t.new }
{
    let more = scan_of(t, z).observe();
    table_words::push(t, z, Table::Scan, 0, i);
    table_words::set(t, z, Table::Fit, i as usize, u32::from(eligible));
    keep_scan(t, z, more);
}

// A further observation of the island i.
fn observe_again(t: &mut [u32], z: Sizes, i: u32, eligible: bool)
    requires { Heard z t.old i }
    ensures { Steps z (noting i eligible) t.old t.new }
{
    if !eligible {
        table_words::set(t, z, Table::Fit, i as usize, 0);
    }
}

// observe_body_for_sleep, on sound tables.
pub fn observe_on(t: &mut [u32], z: Sizes, i: u32, eligible: bool) -> Answer
    requires { Sound z t.old }
    ensures { Does z (observe_body_for_sleep i eligible) t.old result t.new }
{
    if !core_live::is_live(t, z, i) {
        return Err(Refusal::NoIsland);
    }
    if table_words::get(t, z, Table::Head, word::SCAN_OPEN) != 1 {
        return Err(Refusal::NoScan);
    }
    // A word of the tables, where NONE is no list.
    if table_words::home(t, z, Table::Scan, i) == NONE {
        observe_first(t, z, i, eligible);
    } else {
        observe_again(t, z, i, eligible);
    }
    Ok(Outcome::Done)
}
