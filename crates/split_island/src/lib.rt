// The split of an island, on sound tables. The waiting split, and who may bid, is split_pending.
#![tactic(auto)]

ghost use Rattle.std.specs.Prelude.{◌≡◌, ◌≤◌, length};
ghost use Rattle.def_state.specs.Split.{denial as denial_of, split_island_now};
ghost use Rattle.table_meaning.specs.Decode.{world_of};
ghost use Rattle.table_meaning.specs.Sound.{Sound};
ghost use Rattle.table_meaning.specs.Does.{Does};
ghost use Rattle.core_laws.specs.Steps.{Steps};
ghost use Rattle.core_laws.specs.Lives.{Lives};
ghost use Rattle.split_island.specs.Assign.{AssignReady, Assigning};
ghost use Rattle.split_island.specs.Part.{PartReady, Parts, checking, splitting, SplitReady, Splittable};

use def_kinds::{Answer, Outcome, Refusal, Sizes};
use table_meaning::{Table, word};

// After a split an island may bid again when so many scans have begun.
const COOLDOWN: u32 = 16;

// So many bodies are few: for them, clearing more scratch would take longer than the split.
const FEW: usize = 256;

// No island has more.
const MANY: usize = 4096;

// Each place of the island base gets its goal, and each component that leaves its number, in the order of their first bodies.
pub fn assign_goals(
    t: &mut [u32],
    z: Sizes,
    base: u32,
    keep: u32,
    asleep: u32,
    labels: &[u32],
    goals: &mut [u32],
)
    requires { AssignReady z base keep asleep labels.now goals.old t.old }
    ensures { Assigning z base keep asleep labels.now t.old t.new goals.new (length labels.now) }
{
    // One turn for each body of the island: at most as many as there are slots.
    for (p, label) in labels.iter().enumerate() {
        let label = *label as usize;
        goals[p] = if label < p {
            goals[label]
        } else if p as u32 == keep {
            base
        } else {
            split_move::take_number(t, z, asleep)
        };
    }
}

// More than one component: new islands, then links, then bodies leave.
pub fn part_island(t: &mut [u32], z: Sizes, base: u32, keep: u32, labels: &[u32], goals: &mut [u32])
    requires { PartReady z base keep labels.now goals.old t.old }
    ensures { Parts z base t.old t.new }
{
    let asleep = table_words::get(
        t,
        z,
        Table::Rows,
        word::ROW * (base as usize) + word::ASLEEP,
    );
    assign_goals(t, z, base, keep, asleep, labels, goals);
    split_walk::contacts_leave(t, z, base, goals);
    split_walk::joints_leave(t, z, base, goals);
    split_walk::bodies_leave(t, z, base, keep, goals);
}

// The stamp at which an island that is checked at this stamp may bid again.
pub fn denial(stamp: u32) -> u32
    ensures { result ≡ denial_of stamp }
{
    stamp.saturating_add(COOLDOWN)
}

// Count 0, denial set.
pub fn check_island(t: &mut [u32], z: Sizes, i: u32)
    requires { Sound z t.old × Lives z t.old i }
    ensures { Steps z (checking i) t.old t.new }
{
    let stamp = table_words::get(t, z, Table::Head, word::STAMP);
    let until = denial(stamp);
    table_words::set_all(t, z, Table::Rows, word::ROW * (i as usize), &[0, until]);
}

// split_island_now, of a live island, with a word of each slice for each of its bodies. When the labels are known, first holds the goals.
// The slices go one by one, as in split_forest.
pub fn split_island(
    t: &mut [u32],
    z: Sizes,
    i: u32,
    parent: &mut [u32],
    size: &mut [u32],
    first: &mut [u32],
    labels: &mut [u32],
)
    requires { SplitReady z i t.old parent.old size.old first.old labels.old }
    ensures { Steps z (splitting i) t.old t.new }
{
    let shape = split_label::label_island(t, z, i, parent, size, first, labels);
    if shape.components > 1 {
        part_island(t, z, i, shape.keep, labels, first);
    }
    check_island(t, z, i);
}

// The same in scratch of its own: four lists of N words, of which the first n are used. There is no heap, so their size is one that is known here.
fn split_sized<const N: usize>(t: &mut [u32], z: Sizes, i: u32, n: usize)
    requires { Splittable z i n t.old × (n ≤ N) × (N ≤ 4096) }
    ensures { Steps z (splitting i) t.old t.new }
{
    let mut parent = [0u32; N];
    let mut size = [0u32; N];
    let mut first = [0u32; N];
    let mut labels = [0u32; N];
    split_island(
        t,
        z,
        i,
        &mut parent[..n],
        &mut size[..n],
        &mut first[..n],
        &mut labels[..n],
    );
}

// split_island_now, of a live island with n bodies.
pub fn split_live(t: &mut [u32], z: Sizes, i: u32, n: usize)
    requires { Splittable z i n t.old }
    ensures { Steps z (splitting i) t.old t.new }
{
    if n <= FEW {
        split_sized::<FEW>(t, z, i, n);
    } else {
        split_sized::<MANY>(t, z, i, n);
    }
}

// split_island_now: a number not live is 6.
pub fn split_on(t: &mut [u32], z: Sizes, i: u32) -> Answer
    requires { Sound z t.old × (z.slots ≤ 4096) }
    ensures { Does z (split_island_now i) t.old result t.new }
{
    if !core_live::is_live(t, z, i) {
        return Err(Refusal::NoIsland);
    }
    let bodies = table_words::count(t, z, Table::Members, i) as usize;
    split_live(t, z, i, bodies);
    Ok(Outcome::Done)
}
