// The image of what a table holds, and which bytes are one, as definitions and laws. The numbers of its layout, for the crates
// whose code reads or writes its bytes; `specs/Layout` has the same by name.
#![tactic(auto)]

// The bytes of a record: the header, a block, a node.
pub const HEADER_BYTES: usize = 15;

pub const BLOCK_BYTES: usize = 14;

pub const NODE_BYTES: usize = 30;

// What the header has more where the salt is not zero.
pub const SALT_BYTES: usize = 8;

// What the record of a measured key has more than a node's.
pub const MEASURE_BYTES: usize = 6;

// The bytes of a field: the order; a count, a level or a rank; a key; a length; a stored correction.
pub const ORDER_BYTES: usize = 1;

pub const COUNT_BYTES: usize = 2;

pub const KEY_BYTES: usize = 8;

pub const LENGTH_BYTES: usize = 4;

pub const CORRECTION_BYTES: usize = 2;

// The bytes of the marks: the first of every record, then the one that names its kind.
pub const MARK: u8 = b'L';

pub const HEADER_MARK: u8 = b'H';

pub const SALTED_MARK: u8 = b'S';

pub const BLOCK_MARK: u8 = b'B';

pub const NODE_MARK: u8 = b'N';

pub const MEASURED_MARK: u8 = b'M';

// Where the header's fields begin.
pub const ORDER_AT: usize = 2;

pub const SIZE_AT: usize = 3;

pub const BLOCKS_AT: usize = 5;

pub const ROOT_AT: usize = 7;

pub const SALT_AT: usize = 15;

// Where a block record's fields begin.
pub const LEADER_AT: usize = 2;

pub const LEVEL_AT: usize = 10;

pub const HELD_AT: usize = 12;

// Where a node record's fields begin.
pub const KEY_AT: usize = 2;

pub const LEFT_AT: usize = 10;

pub const RIGHT_AT: usize = 18;

pub const RANK_AT: usize = 26;

pub const COUNT_AT: usize = 28;

pub const LENGTH_AT: usize = 30;

pub const CORRECTION_AT: usize = 34;

// No image has more bytes: those of a salt, 4,096 measured keys and as many blocks.
pub const MOST_BYTES: usize = 204823;

// The most bytes with which an image cannot have more than 512 keys: a header and so many node records.
pub const MEDIUM_BYTES: usize = 15375;
