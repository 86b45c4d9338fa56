// The types that every crate shares: numbers by kind, handles, joint keys, answers, the scan, sizes.
#![tactic(auto)]

ghost use Rattle.std.specs.Prelude.{◌≡◌, ◌+◌, ◌%◌, ◌<◌, true, false, Ok, Err};
ghost use Rattle.def_kinds.specs.Number.{number};

// The number of no slot, no island, no edge and no place.
pub const NONE: u32 = 4294967295;

// A body slot, an island number and an edge number: three types, so that a call with the wrong kind of number does not compile.
#[derive(Clone, Copy, Debug, PartialEq, Eq)]
pub struct Slot(pub u32);

#[derive(Clone, Copy, Debug, PartialEq, Eq)]
pub struct Island(pub u32);

#[derive(Clone, Copy, Debug, PartialEq, Eq)]
pub struct Edge(pub u32);

// A body: its slot, and which of the slot's bodies it is. A link's two bodies stay two arguments: the definitions and C name them one by one, and a struct of
// the two would say ends.first in each promise.
#[derive(Clone, Copy, Debug, PartialEq, Eq)]
pub struct Handle {
    pub slot: Slot,
    pub generation: u32,
}

impl Handle {
    // Names nothing.
    pub const ABSENT: Handle = Handle {
        slot: Slot(4294967295),
        generation: 4294967295,
    };

    pub fn new(slot: Slot, generation: u32) -> Self
        ensures { (result.slot ≡ slot) × (result.generation ≡ generation) }
    {
        Handle { slot, generation }
    }
}

// What a body is besides: fixed, enabled, sleeping.
#[derive(Clone, Copy, Debug, PartialEq, Eq)]
pub struct Flags {
    pub fixed: bool,
    pub enabled: bool,
    pub sleeping: bool,
}

// What a joint link is known by (JointLinkKey).
#[derive(Clone, Copy, Debug, PartialEq, Eq)]
pub enum JointKey {
    Impulse { index: u32, generation: u32 },
    Chain { multibody: u64, ordinal: u32 },
}

// What a call did that was not refused.
#[derive(Clone, Copy, Debug, PartialEq, Eq)]
pub enum Outcome {
    Done,
    Nothing,
}

// Why a call is refused.
#[derive(Clone, Copy, Debug, PartialEq, Eq)]
pub enum Refusal {
    OverSize,
    StillLinked,
    JointsFull,
    JournalFull,
    NoIsland,
    NoScan,
    TooShort,
    BadTables,
    SlotTaken,
    BadGeneration,
}

// What a call answers. A question has its value in place of the outcome, where it is not refused.
pub type Answer = Result<Outcome, Refusal>;

impl From<Outcome> for u32 {
    ghost from_gives = { λ outcome n. n ≡ number (Ok outcome) };

    fn from(outcome: Outcome) -> u32 {
        match outcome {
            Outcome::Done => 0,
            Outcome::Nothing => 1,
        }
    }
}

impl From<Refusal> for u32 {
    ghost from_gives = { λ refusal n. n ≡ number (Err refusal) };

    fn from(refusal: Refusal) -> u32 {
        match refusal {
            Refusal::OverSize => 2,
            Refusal::StillLinked => 3,
            Refusal::JointsFull => 4,
            Refusal::JournalFull => 5,
            Refusal::NoIsland => 6,
            Refusal::NoScan => 7,
            Refusal::TooShort => 8,
            Refusal::BadTables => 9,
            Refusal::SlotTaken => 10,
            Refusal::BadGeneration => 11,
        }
    }
}

// The number of an answer, as the definition `number` has it: the name that the contracts cite.
pub fn number(answer: Answer) -> u32
    ensures { result ≡ number answer }
{
    match answer {
        Ok(outcome) => u32::from(outcome),
        Err(refusal) => u32::from(refusal),
    }
}

// The sleep scan: its stamp, whether it is open, and how many islands wait in it.
#[derive(Clone, Copy)]
pub struct Scan {
    pub stamp: u32,
    pub open: bool,
    pub waiting: u32,
}

impl Scan {
    // A scan always opens anew; the stamp after 4294967295 is 0.
    pub fn begin(mut self) -> Self
        ensures { (result.stamp ≡ (self.stamp + 1) % 4294967296) × (result.open ≡ true) × (result.waiting ≡ 0) }
    {
        self.stamp = self.stamp.wrapping_add(1);
        self.open = true;
        self.waiting = 0;
        self
    }

    // One more island waits.
    pub fn observe(mut self) -> Self
        requires { self.waiting < 4294967295 }
        ensures { (result.stamp ≡ self.stamp) × (result.open ≡ self.open) × (result.waiting ≡ self.waiting + 1) }
    {
        self.waiting += 1;
        self
    }

    pub fn close(mut self) -> Self
        ensures { (result.stamp ≡ self.stamp) × (result.open ≡ false) × (result.waiting ≡ 0) }
    {
        self.open = false;
        self.waiting = 0;
        self
    }
}

// How much of each thing there is room for. All tables, definitions and proofs are over these.
// Words and sizes (t, z) go side by side and not in a struct: a function that is lent the struct to change owes two clauses more, that the words are the
// same loan and that the sizes stay (docs/DESIGN-PASS.md).
#[derive(Clone, Copy)]
pub struct Sizes {
    pub slots: u32,
    pub islands: u32,
    pub edges: u32,
    pub joints: u32,
    pub journal: u32,
}

impl Sizes {
    // The rig's.
    pub const RIG: Sizes = Sizes {
        slots: 4096,
        islands: 4096,
        edges: 16384,
        joints: 4096,
        journal: 8192,
    };
}
