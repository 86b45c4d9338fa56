// An island is marked asleep, or wakes: on sound tables.
#![tactic(auto)]

ghost use Rattle.def_state.specs.Scan.{mark_island_sleeping, wake_island};
ghost use Rattle.table_meaning.specs.Sound.{Sound};
ghost use Rattle.table_meaning.specs.Does.{Does};
ghost use Rattle.core_laws.specs.Steps.{Steps};
ghost use Rattle.core_laws.specs.Lives.{Lives};
ghost use Rattle.core_sleep.specs.Resting.{rest_as};

use def_kinds::{Answer, Outcome, Refusal, Sizes};
use table_meaning::{Table, word};

// The live island i sleeps, or not.
fn rest(t: &mut [u32], z: Sizes, i: u32, asleep: bool)
    requires { Sound z t.old × Lives z t.old i }
    ensures { Steps z (rest_as i asleep) t.old t.new }
{
    let at = word::ROW * (i as usize) + word::ASLEEP;
    table_words::set(t, z, Table::Rows, at, u32::from(asleep));
}

// mark_island_sleeping, on sound tables.
pub fn sleep_on(t: &mut [u32], z: Sizes, i: u32) -> Answer
    requires { Sound z t.old }
    ensures { Does z (mark_island_sleeping i) t.old result t.new }
{
    if !core_live::is_live(t, z, i) {
        return Err(Refusal::NoIsland);
    }
    rest(t, z, i, true);
    core_live::clear_pending_split_of(t, z, i);
    Ok(Outcome::Done)
}

// An island wakes, on sound tables.
// Not one function with sleep_on: waking leaves a pending split, as its definition does.
pub fn wake_on(t: &mut [u32], z: Sizes, i: u32) -> Answer
    requires { Sound z t.old }
    ensures { Does z (wake_island i) t.old result t.new }
{
    if !core_live::is_live(t, z, i) {
        return Err(Refusal::NoIsland);
    }
    rest(t, z, i, false);
    Ok(Outcome::Done)
}
