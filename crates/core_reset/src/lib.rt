// Reset, on any words of the right length.
#![tactic(auto)]

ghost use Rattle.std.specs.Prelude.{◌≤◌};
ghost use Rattle.table_meaning.specs.Does.{Reset};

use def_kinds::{Answer, NONE, Outcome, Refusal, Sizes};
use table_meaning::{Table, word};

// Empties the tables, whatever they hold: 15 words, however large they are.
pub fn reset_of(t: &mut [u32], z: Sizes) -> Answer
    requires { z.slots ≤ z.islands }
    ensures { Reset z t.old result t.new }
{
    let long = table_words::buffer_long(z);
    if t.len() != long {
        return Err(Refusal::BadTables);
    }
    let islands = table_words::ends_at(z, Table::Freed);
    let joints = table_words::ends_at(z, Table::Spare);
    table_words::set_all(t, z, Table::Head, word::SLOTS_USED, &[0, 0, 0, 0, 0]);
    table_words::set_all(t, z, Table::Head, word::IS_PENDING, &[0, 0, 0, 0]);
    table_words::set_all(t, z, Table::Freed, islands, &[0, NONE]);
    table_words::set_all(t, z, Table::Spare, joints, &[0, NONE]);
    table_words::set_all(t, z, Table::Scan, islands, &[0, NONE]);
    Ok(Outcome::Done)
}
