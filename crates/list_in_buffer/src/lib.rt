// A chain table that is a part of one buffer: what list_in_table does to it, and the rest of the buffer stays.
#![tactic(auto)]

ghost use Rattle.std.specs.Prelude.{◌≡◌, ℕ, ◌+◌, ◌*◌, ◌<◌, ◌≤◌, length, get_or, set};
ghost use Rattle.list_in_table.specs.Rules.{Is};
ghost use Rattle.list_in_table.specs.Table.{pushed, removed, PushReady, RemoveReady, Room, Wf};
ghost use Rattle.list_splice.specs.Splice.{spliced, SpliceReady};
ghost use Rattle.list_in_buffer.specs.Part.{part, Put};

// Where a table lies in a buffer: it has so many words from at on.
#[derive(Clone, Copy)]
pub struct Part {
    pub at: usize,
    pub long: usize,
}

// In the table p: the element e, which is in no list, is put last in the list i.
// Each of these four is one call of its own function; ends stands beside p as in list_in_table, and is one number.
pub fn push_in(t: &mut [u32], p: Part, ends: usize, i: u32, e: u32)
    requires { (p.at + p.long ≤ length t.old) × PushReady (part t.old p.at p.long) 0 ends i e }
    ensures { Put p.at p.long t.old t.new (pushed (part t.old p.at p.long) 0 ends i e) }
{
    let end = p.at + p.long;
    list_in_table::push_last(&mut t[p.at..end], 0, ends, i, e);
}

// In the table p: the element e is taken out of its list, whose last element takes its place.
pub fn remove_in(t: &mut [u32], p: Part, ends: usize, e: u32)
    requires { (p.at + p.long ≤ length t.old) × RemoveReady (part t.old p.at p.long) 0 ends e }
    ensures { Put p.at p.long t.old t.new (removed (part t.old p.at p.long) 0 ends e) }
{
    let end = p.at + p.long;
    list_in_table::swap_remove(&mut t[p.at..end], 0, ends, e);
}

// In the table p: the list small is put behind the list big, and is empty then.
pub fn splice_in(t: &mut [u32], p: Part, ends: usize, big: u32, small: u32)
    requires { (p.at + p.long ≤ length t.old) × SpliceReady (part t.old p.at p.long) 0 ends big small }
    ensures { Put p.at p.long t.old t.new (spliced (part t.old p.at p.long) 0 ends big small) }
{
    let end = p.at + p.long;
    list_splice::splice(&mut t[p.at..end], 0, ends, big, small);
}

// The word j of the table p becomes v.
pub fn set_in(t: &mut [u32], p: Part, j: usize, v: u32)
    requires { (p.at + p.long ≤ length t.old) × (j < p.long) }
    ensures { Put p.at p.long t.old t.new (set (part t.old p.at p.long) j v) }
{
    t[p.at + j] = v;
}

// The word j of the table p.
pub fn get_in(t: &[u32], p: Part, j: usize) -> u32
    requires { (p.at + p.long ≤ length t.now) × (j < p.long) }
    ensures { (result ≡ get_or (part t.now p.at p.long) j 0) × (result ≤ 4294967295) }
{
    t[p.at + j]
}

// Do the rules hold of the table p?
pub fn audit_in(t: &[u32], p: Part, ends: usize, n: u32, m: u32) -> bool
    requires { (p.at + p.long ≤ length t.now) × Room (part t.now p.at p.long) 0 ends n m }
    ensures { Is result (Wf (part t.now p.at p.long) 0 ends n m) }
{
    let end = p.at + p.long;
    list_audit::audit(&t[p.at..end], 0, ends, n, m)
}
