// The audit of the whole buffer, on any words: the rules of each entry, the chain tables, the head, and no key twice.
// NONE, no number, is a word of the tables that the host lends (the C interface), so it is compared as it stands.
// The words and their sizes are lent as two: where a struct lent both, each promise would say x.entry.words.now for t.now.
#![tactic(auto)]

ghost use Rattle.std.specs.Prelude.{◌≡◌, ◌⊎◌, ℕ, ◌<◌, ◌≤◌, length};
ghost use Rattle.list_in_table.specs.Rules.{Is};
ghost use Rattle.table_meaning.specs.Layout.{tables, total, joints_in};
ghost use Rattle.table_meaning.specs.Rule.{SlotRule, IslandRule, ScanRule};
ghost use Rattle.table_meaning.specs.Sound.{SlotAt, IslandAt, SeenAt, EdgeAt, JointAt, SameKey, Distinct, Sound};
ghost use Rattle.table_audit.specs.Parts.{Extended, Within, Chained, Ruled, HeadAt, Other, New};

use def_kinds::{Handle, NONE, Sizes};
use table_meaning::{KeyWords, Table, word};

// ---- the rule of one entry, over its words

// A flag and a number: is it 1, or are both 0?
fn one_or_none(k: u32, x: u32) -> bool
    ensures { Is result (((k ≡ 0) × (x ≡ 0)) ⊎ (k ≡ 1)) }
{
    k == 1 || k == 0 && x == 0
}

// A slot: its generation, is it fixed, enabled, sleeping, and the island of its body.
#[derive(Clone, Copy, PartialEq, Eq)]
struct SlotWords {
    generation: u32,
    fixed: u32,
    enabled: u32,
    sleeping: u32,
    home: u32,
}

impl SlotWords {
    const VACANT: SlotWords = SlotWords {
        generation: NONE,
        fixed: 0,
        enabled: 0,
        sleeping: 0,
        home: NONE,
    };

    fn is_right(self) -> bool
        ensures { Is result (SlotRule self.generation self.fixed self.enabled self.sleeping self.home) }
    {
        if self.generation == NONE {
            self == Self::VACANT
        } else {
            self.fixed <= 1 && self.enabled <= 1 && self.sleeping <= 1
        }
    }
}

// An island: its bodies, contact links and joint links; removals, denial, is it sleeping; and its home in the free stack.
#[derive(Clone, Copy, PartialEq, Eq)]
struct IslandWords {
    bodies: u32,
    contacts: u32,
    joints: u32,
    removals: u32,
    denied_until: u32,
    asleep: u32,
    freed: u32,
}

impl IslandWords {
    const FREED: IslandWords = IslandWords {
        bodies: 0,
        contacts: 0,
        joints: 0,
        removals: 0,
        denied_until: 0,
        asleep: 0,
        freed: 0,
    };

    fn is_right(self) -> bool
        ensures { Is result (IslandRule self.bodies self.contacts self.joints self.removals self.denied_until self.asleep self.freed) }
    {
        if self.bodies == 0 {
            self == Self::FREED
        } else {
            self.asleep <= 1 && self.freed == NONE
        }
    }
}

// An island in the scan: its home in the scan's list, and its word.
fn scan_rule(h: u32, f: u32) -> bool
    ensures { Is result (ScanRule h f) }
{
    if h == NONE { f == 0 } else { f <= 1 }
}

// The words of a joint place that is not linked.
const NO_KEY: KeyWords = KeyWords {
    kind: NONE,
    first: NONE,
    second: NONE,
    third: NONE,
};

// ---- one entry of the tables

fn is_slot(t: &[u32], z: Sizes, s: u32) -> bool
    requires { (length t.now ≡ total z) × (s < z.slots) }
    ensures { Is result (SlotAt z (tables z t.now) s) }
{
    let at = word::SLOT * (s as usize);
    let slot = SlotWords {
        generation: table_words::get(t, z, Table::Slots, at),
        fixed: table_words::get(t, z, Table::Slots, at + word::FIXED),
        enabled: table_words::get(t, z, Table::Slots, at + word::ENABLED),
        sleeping: table_words::get(t, z, Table::Slots, at + word::SLEEPING),
        home: table_words::home(t, z, Table::Members, s),
    };
    slot.is_right()
}

fn is_island(t: &[u32], z: Sizes, i: u32) -> bool
    requires { (length t.now ≡ total z) × (i < z.islands) }
    ensures { Is result (IslandAt z (tables z t.now) i) }
{
    let at = word::ROW * (i as usize);
    let island = IslandWords {
        bodies: table_words::count(t, z, Table::Members, i),
        contacts: table_words::count(t, z, Table::Contacts, i),
        joints: table_words::count(t, z, Table::Joints, i),
        removals: table_words::get(t, z, Table::Rows, at),
        denied_until: table_words::get(t, z, Table::Rows, at + word::DENIED_UNTIL),
        asleep: table_words::get(t, z, Table::Rows, at + word::ASLEEP),
        freed: table_words::home(t, z, Table::Freed, i),
    };
    island.is_right()
}

fn is_seen(t: &[u32], z: Sizes, i: u32) -> bool
    requires { (length t.now ≡ total z) × (i < z.islands) }
    ensures { Is result (SeenAt z (tables z t.now) i) }
{
    let home = table_words::home(t, z, Table::Scan, i);
    let fit = table_words::get(t, z, Table::Fit, i as usize);
    scan_rule(home, fit)
}

// An edge: linked, or its words are blank.
fn is_edge(t: &[u32], z: Sizes, e: u32) -> bool
    requires { (length t.now ≡ total z) × (e < z.edges) }
    ensures { Is result (EdgeAt z (tables z t.now) e) }
{
    let at = word::TOUCH * (e as usize);
    table_words::home(t, z, Table::Contacts, e) != NONE
        || table_words::handle_at(t, z, Table::Touches, at) == Handle::ABSENT
            && table_words::handle_at(t, z, Table::Touches, at + word::SLOT2) == Handle::ABSENT
}

// A joint place: linked with a key of one of the two kinds, or free and blank.
fn is_joint(t: &[u32], z: Sizes, p: u32) -> bool
    requires { (length t.now ≡ total z) × (p < z.joints) }
    ensures { Is result (JointAt z (tables z t.now) p) }
{
    let at = word::KEY * (p as usize);
    let spare = table_words::home(t, z, Table::Spare, p);
    let key = table_words::key_at(t, z, p);
    if table_words::home(t, z, Table::Joints, p) == NONE {
        spare == 0
            && key == NO_KEY
            && table_words::handle_at(t, z, Table::Keys, at + word::KEY_BODIES) == Handle::ABSENT
            && table_words::handle_at(t, z, Table::Keys, at + word::KEY_SLOT2) == Handle::ABSENT
    } else {
        spare == NONE && one_or_none(key.kind, key.third)
    }
}

// The head: is a split pending, of which island, is a scan open, and how many islands are in its list.
fn is_head(t: &[u32], z: Sizes) -> bool
    requires { length t.now ≡ total z }
    ensures { Is result (HeadAt z (tables z t.now)) }
{
    // Flags are words of the head, which C reads.
    let is_pending = table_words::get(t, z, Table::Head, word::IS_PENDING);
    let pending = table_words::get(t, z, Table::Head, word::PENDING);
    let scan_open = table_words::get(t, z, Table::Head, word::SCAN_OPEN);
    let waiting = table_words::count(t, z, Table::Scan, 0);
    one_or_none(is_pending, pending) && one_or_none(scan_open, waiting)
}

// ---- keys

// Have the places p and q the same key?
// The name of a definition that the promises cite.
fn same_key(t: &[u32], z: Sizes, p: u32, q: u32) -> bool
    requires { (length t.now ≡ total z) × (p < z.joints) × (q < z.joints) }
    ensures { Is result (SameKey (tables z t.now).keys p q) }
{
    table_words::key_at(t, z, p) == table_words::key_at(t, z, q)
}

// Is the place q not linked, or its key another than that of p?
fn is_other(t: &[u32], z: Sizes, p: u32, q: u32) -> bool
    requires { (length t.now ≡ total z) × (p < z.joints) × (q < z.joints) }
    ensures { Is result (Other (joints_in z (tables z t.now)).home (tables z t.now).keys p q) }
{
    // The keys first: nearly all differ, and the words of p are read once for all q then.
    !same_key(t, z, p, q) || table_words::home(t, z, Table::Joints, q) == NONE
}

// Is the place p not linked, or its key that of no linked place below it? One turn for each joint place below p.
fn is_new(t: &[u32], z: Sizes, p: u32) -> bool
    requires { (length t.now ≡ total z) × (p < z.joints) }
    ensures { Is result (New (joints_in z (tables z t.now)).home (tables z t.now).keys p) }
{
    table_words::home(t, z, Table::Joints, p) == NONE || (0..p).all(|q| is_other(t, z, p, q))
}

// Is no key twice among the linked places in use? Each pair of them is compared: one turn for each joint place in use, which looks at each place below it.
fn keys_differ(t: &[u32], z: Sizes, n: u32) -> bool
    requires { (length t.now ≡ total z) × (n ≤ z.joints) }
    ensures { Is result (Distinct (joints_in z (tables z t.now)).home (tables z t.now).keys n) }
{
    (0..n).all(|p| is_new(t, z, p))
}

// ---- the whole

// How much is in use: slots, island numbers, edge numbers, joint places and journal entries.
#[derive(Clone, Copy)]
struct Used {
    slots: u32,
    islands: u32,
    edges: u32,
    joints: u32,
    journal: u32,
}

// Are these extents within the sizes?
fn extents_fit(z: Sizes, used: Used) -> bool
    ensures { Is result (Within z used) }
{
    z.slots <= z.islands
        && used.slots <= z.slots
        && used.islands <= z.islands
        && used.edges <= z.edges
        && used.joints <= z.joints
        && used.journal <= z.journal
}

// Do the six chain tables keep the rules?
fn chains_sound(t: &[u32], z: Sizes, used: Used) -> bool
    requires { (length t.now ≡ total z) × Within z used }
    ensures { Is result (Chained z (tables z t.now) used) }
{
    table_words::chains_hold(t, z, Table::Members, used.slots, used.islands)
        && table_words::chains_hold(t, z, Table::Freed, used.islands, 1)
        && table_words::chains_hold(t, z, Table::Contacts, used.edges, used.islands)
        && table_words::chains_hold(t, z, Table::Joints, used.joints, used.islands)
        && table_words::chains_hold(t, z, Table::Spare, used.joints, 1)
        && table_words::chains_hold(t, z, Table::Scan, used.islands, 1)
}

// Does each entry in use keep its rule? One turn for each slot, each island number, each edge number and each joint place in use.
fn entries_sound(t: &[u32], z: Sizes, used: Used) -> bool
    requires { (length t.now ≡ total z) × Within z used }
    ensures { Is result (Ruled z (tables z t.now) used) }
{
    (0..used.slots).all(|s| is_slot(t, z, s))
        && (0..used.islands).all(|i| is_island(t, z, i))
        && (0..used.islands).all(|i| is_seen(t, z, i))
        && (0..used.edges).all(|e| is_edge(t, z, e))
        && (0..used.joints).all(|p| is_joint(t, z, p))
}

// Are the tables of a buffer of the right length well formed? Its extents were read already.
fn tables_sound(t: &[u32], z: Sizes, used: Used) -> bool
    requires { (length t.now ≡ total z) × Extended (tables z t.now) used }
    ensures { Is result (Sound z t.now) }
{
    extents_fit(z, used)
        && chains_sound(t, z, used)
        && entries_sound(t, z, used)
        && is_head(t, z)
        && keys_differ(t, z, used.joints)
}

// Are the tables well formed, as far as they are in use? Any words may be asked of, and any number of them.
pub fn sound(t: &[u32], z: Sizes) -> bool
    ensures { Is result (Sound z t.now) }
{
    if t.len() != table_words::buffer_long(z) {
        return false;
    }
    let used = Used {
        slots: table_words::get(t, z, Table::Head, word::SLOTS_USED),
        islands: table_words::get(t, z, Table::Head, word::ISLANDS_USED),
        edges: table_words::get(t, z, Table::Head, word::TRACKED),
        joints: table_words::get(t, z, Table::Head, word::JOINTS_USED),
        journal: table_words::get(t, z, Table::Head, word::JOURNAL_USED),
    };
    tables_sound(t, z, used)
}
