// The plain resolver: every entry of the journal, in order.
#![tactic(auto)]

ghost use Rattle.std.specs.Prelude.{◌≡◌};
ghost use Rattle.def_state.specs.Resolver.{resolve_removals};
ghost use Rattle.table_meaning.specs.Sound.{Sound};
ghost use Rattle.table_meaning.specs.Does.{Does};
ghost use Rattle.core_laws.specs.Resolving.{entry_of, Counted};

use def_kinds::{Answer, Handle, Outcome, Sizes};
use table_meaning::{Table, word};

// One entry: where both handles are members of one island, its count rises by 1.
pub fn count_entry(t: &mut [u32], z: Sizes, first: Handle, second: Handle)
    requires { Sound z t.old }
    ensures { Counted z (entry_of first.slot.0 first.generation second.slot.0 second.generation) t.old t.new }
{
    let Some(i) = core_contact::body_island(t, z, first) else {
        return;
    };
    if core_contact::body_island(t, z, second) == Some(i) {
        let at = word::ROW * (i as usize);
        let removals = table_words::get(t, z, Table::Rows, at);
        table_words::set(t, z, Table::Rows, at, removals.saturating_add(1));
    }
}

// The resolver, on sound tables.
pub fn resolve_on(t: &mut [u32], z: Sizes) -> Answer
    requires { Sound z t.old }
    ensures { Does z resolve_removals t.old result t.new }
{
    let entries = table_words::get(t, z, Table::Head, word::JOURNAL_USED);
    if entries == 0 {
        return Ok(Outcome::Nothing);
    }
    // One turn for each entry of the journal: at most as many as it has room for.
    for k in 0..entries {
        let at = word::ENTRY * (k as usize);
        let first = table_words::handle_at(t, z, Table::Journal, at);
        let second = table_words::handle_at(t, z, Table::Journal, at + word::SLOT2);
        count_entry(t, z, first, second);
    }
    table_words::set(t, z, Table::Head, word::JOURNAL_USED, 0);
    Ok(Outcome::Done)
}
