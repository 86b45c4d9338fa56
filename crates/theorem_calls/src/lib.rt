// From the code to the histories: each export, called on the tables that a history left, leaves the tables of a history. Nothing calls these
// functions: the check of their contracts ties what the exports promise to the calls that the theorems of theorem_history speak of. A host
// call's promise is its export's, said of the answer itself. The two questions, island and may_bid, get the tables to read only.
#![tactic(auto)]

ghost use Rattle.theorem_calls.specs.Next.{Next};

pub fn reset(t: &mut [u32]) -> u32
    ensures { Next t.old t.new }
{
    ashwoodrung::ashwoodrung_reset(t)
}

pub fn put(
    t: &mut [u32],
    slot: u32,
    generation: u32,
    fixed: u32,
    enabled: u32,
    sleeping: u32,
) -> u32
    ensures { Next t.old t.new }
{
    ashwoodrung::ashwoodrung_put(t, slot, generation, fixed, enabled, sleeping)
}

pub fn flags(
    t: &mut [u32],
    slot: u32,
    generation: u32,
    fixed: u32,
    enabled: u32,
    sleeping: u32,
) -> u32
    ensures { Next t.old t.new }
{
    ashwoodrung::ashwoodrung_flags(t, slot, generation, fixed, enabled, sleeping)
}

pub fn ensure(t: &mut [u32], slot: u32, generation: u32) -> u32
    ensures { Next t.old t.new }
{
    ashwoodrung::ashwoodrung_ensure(t, slot, generation)
}

pub fn remove(t: &mut [u32], slot: u32, generation: u32) -> u32
    ensures { Next t.old t.new }
{
    ashwoodrung::ashwoodrung_remove(t, slot, generation)
}

pub fn retire(t: &mut [u32], slot: u32, generation: u32) -> u32
    ensures { Next t.old t.new }
{
    ashwoodrung::ashwoodrung_retire(t, slot, generation)
}

pub fn contact(
    t: &mut [u32],
    edge: u32,
    slot1: u32,
    generation1: u32,
    slot2: u32,
    generation2: u32,
) -> u32
    ensures { Next t.old t.new }
{
    ashwoodrung::ashwoodrung_contact(t, edge, slot1, generation1, slot2, generation2)
}

pub fn uncontact(t: &mut [u32], edge: u32) -> u32
    ensures { Next t.old t.new }
{
    ashwoodrung::ashwoodrung_uncontact(t, edge)
}

pub fn renumber(t: &mut [u32], removed: u32, last: u32) -> u32
    ensures { Next t.old t.new }
{
    ashwoodrung::ashwoodrung_renumber(t, removed, last)
}

pub fn joint_impulse(
    t: &mut [u32],
    index: u32,
    generation: u32,
    slot1: u32,
    generation1: u32,
    slot2: u32,
    generation2: u32,
) -> u32
    ensures { Next t.old t.new }
{
    ashwoodrung::ashwoodrung_joint_impulse(
        t,
        index,
        generation,
        slot1,
        generation1,
        slot2,
        generation2,
    )
}

pub fn joint_chain(
    t: &mut [u32],
    multibody: u64,
    ordinal: u32,
    slot1: u32,
    generation1: u32,
    slot2: u32,
    generation2: u32,
) -> u32
    ensures { Next t.old t.new }
{
    ashwoodrung::ashwoodrung_joint_chain(
        t,
        multibody,
        ordinal,
        slot1,
        generation1,
        slot2,
        generation2,
    )
}

pub fn unjoint_impulse(t: &mut [u32], index: u32, generation: u32) -> u32
    ensures { Next t.old t.new }
{
    ashwoodrung::ashwoodrung_unjoint_impulse(t, index, generation)
}

pub fn unjoint_chain(t: &mut [u32], multibody: u64, ordinal: u32) -> u32
    ensures { Next t.old t.new }
{
    ashwoodrung::ashwoodrung_unjoint_chain(t, multibody, ordinal)
}

pub fn chain(t: &mut [u32], multibody: u64, list: &[u32]) -> u32
    ensures { Next t.old t.new }
{
    ashwoodrung::ashwoodrung_chain(t, multibody, list)
}

pub fn resolve(t: &mut [u32]) -> u32
    ensures { Next t.old t.new }
{
    ashwoodrung::ashwoodrung_resolve(t)
}

pub fn split(t: &mut [u32], island: u32) -> u32
    ensures { Next t.old t.new }
{
    ashwoodrung::ashwoodrung_split(t, island)
}

pub fn schedule(t: &mut [u32], island: u32) -> u32
    ensures { Next t.old t.new }
{
    ashwoodrung::ashwoodrung_schedule(t, island)
}

pub fn run(t: &mut [u32]) -> u32
    ensures { Next t.old t.new }
{
    ashwoodrung::ashwoodrung_run(t)
}

pub fn begin(t: &mut [u32]) -> u32
    ensures { Next t.old t.new }
{
    ashwoodrung::ashwoodrung_begin(t)
}

pub fn observe(t: &mut [u32], island: u32, eligible: u32) -> u32
    ensures { Next t.old t.new }
{
    ashwoodrung::ashwoodrung_observe(t, island, eligible)
}

pub fn finish(t: &mut [u32], out: &mut [u32]) -> u64
    ensures { Next t.old t.new }
{
    ashwoodrung::ashwoodrung_finish(t, out)
}

pub fn sleep(t: &mut [u32], island: u32) -> u32
    ensures { Next t.old t.new }
{
    ashwoodrung::ashwoodrung_sleep(t, island)
}

pub fn wake(t: &mut [u32], island: u32) -> u32
    ensures { Next t.old t.new }
{
    ashwoodrung::ashwoodrung_wake(t, island)
}
