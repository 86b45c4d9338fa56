// The waiting split, and who may bid, on sound tables.
#![tactic(auto)]

ghost use Rattle.std.specs.Prelude.{◌≡◌, ◌≤◌};
ghost use Rattle.def_state.specs.Split.{schedule_split, run_pending_split, split_allowed};
ghost use Rattle.table_meaning.specs.Decode.{world_of};
ghost use Rattle.table_meaning.specs.Sound.{Sound};
ghost use Rattle.table_meaning.specs.Does.{Does};

use def_kinds::{Answer, Outcome, Sizes};
use table_meaning::{Table, word};

// schedule_split: any number; it overwrites.
pub fn schedule_on(t: &mut [u32], z: Sizes, i: u32) -> Answer
    requires { Sound z t.old }
    ensures { Does z (schedule_split i) t.old result t.new }
{
    // A flag and a number are words of the head, which C reads.
    table_words::set_all(t, z, Table::Head, word::IS_PENDING, &[1, i]);
    Ok(Outcome::Done)
}

// run_pending_split: it is cleared; a live, awake island is split.
pub fn run_on(t: &mut [u32], z: Sizes) -> Answer
    requires { Sound z t.old × (z.slots ≤ 4096) }
    ensures { Does z run_pending_split t.old result t.new }
{
    let Some(i) = core_live::pending(t, z) else {
        return Ok(Outcome::Nothing);
    };
    table_words::set_all(t, z, Table::Head, word::IS_PENDING, &[0, 0]);
    if !core_live::is_live(t, z, i) {
        return Ok(Outcome::Nothing);
    }
    let asleep = table_words::get(t, z, Table::Rows, word::ROW * (i as usize) + word::ASLEEP);
    if asleep == 1 {
        return Ok(Outcome::Nothing);
    }
    let bodies = table_words::count(t, z, Table::Members, i) as usize;
    split_island::split_live(t, z, i, bodies);
    Ok(Outcome::Done)
}

// split_allowed: a live island with a count, whose denial is over.
pub fn may_bid(t: &[u32], z: Sizes, i: u32) -> bool
    requires { Sound z t.now }
    ensures { result ≡ split_allowed i (world_of z t.now) }
{
    if !core_live::is_live(t, z, i) {
        return false;
    }
    let removals = table_words::get(t, z, Table::Rows, word::ROW * (i as usize));
    let until = table_words::get(
        t,
        z,
        Table::Rows,
        word::ROW * (i as usize) + word::DENIED_UNTIL,
    );
    let stamp = table_words::get(t, z, Table::Head, word::STAMP);
    removals != 0 && stamp >= until
}
