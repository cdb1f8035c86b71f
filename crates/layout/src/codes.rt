// The numbers that stand for states and kinds in the memory, and how much of a word a keeper takes, for the code: those of specs/Codes.antt.

// the state of a row or a tail record: that of its transaction
pub const OPEN: u32 = 0;

pub const COMMITTED: u32 = 1;

pub const ABORTED: u32 = 2;

// the kind of a tail record
pub const ORIGINAL: u32 = 0;

pub const SETTING: u32 = 1;

pub const DELETE: u32 = 2;

// the state of a page
pub const PAGE_FREE: u32 = 0;

pub const PAGE_CURRENT: u32 = 1;

pub const PAGE_WAITING: u32 = 2;

// of a word that holds a keeper, the lower two bytes count
pub const KEEPER_LIMIT: u32 = 65_536;
