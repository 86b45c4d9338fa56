// Where each table lies among the words of the state.
use def_kinds::Sizes;
use lesson_cells::Table;

// The rig's sizes.
pub const SLOTS: u32 = Sizes::RIG.slots;

pub const ISLANDS: u32 = Sizes::RIG.islands;

pub const EDGES: u32 = Sizes::RIG.edges;

pub const JOINTS: u32 = Sizes::RIG.joints;

pub const JOURNAL: u32 = Sizes::RIG.journal;

// Words of the head.
// Told a second time, beside table_meaning::word: so that a shift of a table shows in the dump.
pub const SLOTS_USED: usize = 0;

pub const ISLANDS_USED: usize = 1;

pub const TRACKED: usize = 2;

pub const JOURNAL_USED: usize = 4;

pub const IS_PENDING: usize = 5;

pub const PENDING: usize = 6;

pub const STAMP: usize = 7;

pub const IS_OPEN: usize = 8;

// An element's list, its place there, and the elements before and after it.
pub type Elements = Table<4>;

// A table of chains. A list has 2 words at its end: how many elements it has, and its last one.
#[derive(Clone, Copy)]
pub struct Chains {
    pub elements: Elements,
    pub ends: Table<2>,
    pub capacity: u32,
}

// A slot: generation, lowest allowed generation, fixed, enabled, sleeping.
pub const BODIES: Table<5> = Table { base: 9 };

pub const MEMBERS: Chains = Chains {
    elements: Table {
        base: 9 + 5 * SLOTS,
    },
    ends: Table {
        base: 9 + 9 * SLOTS,
    },
    capacity: SLOTS,
};

// An island: removal count, denied until, sleeping.
pub const ROWS: Table<3> = Table {
    base: 9 + 9 * SLOTS + 2 * ISLANDS,
};

pub const FREED: Chains = Chains {
    elements: Table {
        base: 9 + 9 * SLOTS + 5 * ISLANDS,
    },
    ends: Table {
        base: 9 + 9 * SLOTS + 9 * ISLANDS,
    },
    capacity: ISLANDS,
};

pub const CONTACTS: Chains = Chains {
    elements: Table {
        base: 11 + 9 * SLOTS + 9 * ISLANDS,
    },
    ends: Table {
        base: 11 + 9 * SLOTS + 9 * ISLANDS + 4 * EDGES,
    },
    capacity: EDGES,
};

// An edge: two handles.
pub const TOUCHES: Table<4> = Table {
    base: 11 + 9 * SLOTS + 11 * ISLANDS + 4 * EDGES,
};

pub const LINKED: Chains = Chains {
    elements: Table {
        base: 11 + 9 * SLOTS + 11 * ISLANDS + 8 * EDGES,
    },
    ends: Table {
        base: 11 + 9 * SLOTS + 11 * ISLANDS + 8 * EDGES + 4 * JOINTS,
    },
    capacity: JOINTS,
};

// A joint place: the key in 4, then two handles.
pub const KEYS: Table<8> = Table {
    base: 11 + 9 * SLOTS + 13 * ISLANDS + 8 * EDGES + 4 * JOINTS,
};

// A journal entry: two handles.
pub const ENTRIES: Table<4> = Table {
    base: 13 + 9 * SLOTS + 13 * ISLANDS + 8 * EDGES + 16 * JOINTS,
};

pub const SEEN: Chains = Chains {
    elements: Table {
        base: 13 + 9 * SLOTS + 13 * ISLANDS + 8 * EDGES + 16 * JOINTS + 4 * JOURNAL,
    },
    ends: Table {
        base: 13 + 9 * SLOTS + 17 * ISLANDS + 8 * EDGES + 16 * JOINTS + 4 * JOURNAL,
    },
    capacity: ISLANDS,
};

// An island: 1 while all its observations were eligible.
pub const FIT: Table<1> = Table {
    base: 15 + 9 * SLOTS + 17 * ISLANDS + 8 * EDGES + 16 * JOINTS + 4 * JOURNAL,
};

// How many words the state has.
pub const TOTAL: usize = (FIT.base + ISLANDS) as usize;
