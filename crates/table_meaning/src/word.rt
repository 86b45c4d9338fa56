// The words of the tables by name: how many an entry has, and which is which. specs/Layout.antt says what each holds; include/ashwoodrung.h has
// the same names. A word that is not named here is the first of its entry.

// ---- the head: how much is in use, the pending split, the scan
pub const SLOTS_USED: usize = 0;

pub const ISLANDS_USED: usize = 1;

pub const TRACKED: usize = 2;

pub const JOINTS_USED: usize = 3;

pub const JOURNAL_USED: usize = 4;

pub const IS_PENDING: usize = 5;

pub const PENDING: usize = 6;

pub const STAMP: usize = 7;

pub const SCAN_OPEN: usize = 8;

// ---- a body slot: its generation first
pub const SLOT: usize = 5;

pub const LOWEST: usize = 1;

pub const FIXED: usize = 2;

pub const ENABLED: usize = 3;

pub const SLEEPING: usize = 4;

// ---- an island's row: its removal count first
pub const ROW: usize = 3;

pub const DENIED_UNTIL: usize = 1;

pub const ASLEEP: usize = 2;

// ---- an element of a chain table: its home (which list) first; and a list's count and last, behind the elements
pub const CELL: usize = list_in_table::CELL;

pub const PLACE: usize = list_in_table::PLACE;

pub const PREV: usize = list_in_table::PREV;

pub const END: usize = list_in_table::END;

// ---- the two handles of a contact link, and of a journal entry: the first body's slot first
pub const TOUCH: usize = 4;

pub const ENTRY: usize = 4;

pub const TOUCH_BODIES: usize = 0;

pub const GENERATION1: usize = 1;

pub const SLOT2: usize = 2;

pub const GENERATION2: usize = 3;

// ---- a joint place: its key (the kind first), then the two handles of the link
pub const KEY: usize = 8;

pub const KEY_FIRST: usize = 1;

pub const KEY_SECOND: usize = 2;

pub const KEY_THIRD: usize = 3;

pub const KEY_BODIES: usize = 4;

pub const KEY_GENERATION1: usize = 5;

pub const KEY_SLOT2: usize = 6;

pub const KEY_GENERATION2: usize = 7;
