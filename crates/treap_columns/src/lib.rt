// The columns of a rising list of keys, in terms of positions: their definitions and laws, and the room that they stand in.
#![tactic(auto)]

ghost use Rattle.std.specs.Prelude.{◌≡◌};
ghost use Rattle.treap_columns.specs.Blank.{blank_columns};
ghost use Rattle.treap_columns.specs.Lent.{lists_of};

// The most positions that columns have room for.
pub const MOST_POSITIONS: usize = 4096;

// The columns of a list of keys, entry by entry for positions 1, 2, .., with room for the most that there are. Internal to this library's crates.
#[derive(Drop)]
pub struct Columns {
    pub left: [u16; MOST_POSITIONS],
    pub right: [u16; MOST_POSITIONS],
    pub leader: [u16; MOST_POSITIONS],
    pub rank: [u16; MOST_POSITIONS],
    pub count: [u16; MOST_POSITIONS],
}

impl Columns {
    // Columns of no positions: zeros.
    pub fn new() -> Columns
        ensures { result ≡ blank_columns }
    {
        Columns {
            left: [0; MOST_POSITIONS],
            right: [0; MOST_POSITIONS],
            leader: [0; MOST_POSITIONS],
            rank: [0; MOST_POSITIONS],
            count: [0; MOST_POSITIONS],
        }
    }

    // The columns, lent to be read.
    pub fn lent(&self) -> LentColumns<'_>
        ensures { lists_of result ≡ self.now }
    {
        LentColumns {
            left: &self.left,
            right: &self.right,
            leader: &self.leader,
            rank: &self.rank,
            count: &self.count,
        }
    }
}

// Columns that are lent to be read, each of any length. Internal to this library's crates.
#[derive(Clone, Copy)]
pub struct LentColumns<'a> {
    pub left: &'a [u16],
    pub right: &'a [u16],
    pub leader: &'a [u16],
    pub rank: &'a [u16],
    pub count: &'a [u16],
}
