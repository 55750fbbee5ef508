// The numbers of a table's layout, for the crates whose code reads or writes its words; `specs/Layout` has the same by name.
#![tactic(auto)]

// The words before the first slot.
pub const HEADER_WORDS: usize = 4;

// The words of a slot.
pub const SLOT_WORDS: usize = 8;

// What each of a slot's words is, by its place among them.
pub const KEY_FIELD: usize = 0;

pub const LEFT_FIELD: usize = 1;

pub const RIGHT_FIELD: usize = 2;

pub const LEADER_FIELD: usize = 3;

pub const RANK_FIELD: usize = 4;

pub const COUNT_FIELD: usize = 5;

pub const LENGTH_FIELD: usize = 6;

pub const CORRECTION_FIELD: usize = 7;

// Where the order, the number of keys, the root and the salt stand.
pub const ORDER_WORD: usize = 0;

pub const SIZE_WORD: usize = 1;

pub const ROOT_WORD: usize = 2;

pub const SALT_WORD: usize = 3;

// The most slots that a table has.
pub const MOST_SLOTS: usize = 4096;

// The orders that a table may have.
pub const LEAST_ORDER: u64 = 3;

pub const GREATEST_ORDER: u64 = 255;
