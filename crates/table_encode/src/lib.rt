// Writing the words of a table from the columns of its keys and their tags, and comparing a table with them.
#![tactic(auto)]

ghost use Rattle.std.specs.Prelude.{◌≡◌, ◌+◌, ◌≤◌, length, take, drop};
ghost use Rattle.lists.specs.Lists.{overwrite, same, All};
ghost use Rattle.table.specs.Layout.{table_words, slot_words};
ghost use Rattle.treap_columns.specs.Lent.{lists_of};
ghost use Rattle.table_encode.specs.Encode.{key_at, slot_at, words_in, words_of, Linked};

use table::{
    CORRECTION_FIELD, COUNT_FIELD, HEADER_WORDS, KEY_FIELD, LEADER_FIELD, LEFT_FIELD, LENGTH_FIELD,
    ORDER_WORD, RANK_FIELD, RIGHT_FIELD, ROOT_WORD, SALT_WORD, SIZE_WORD, SLOT_WORDS,
};
use treap_columns::LentColumns;

// The words of a slot.
#[derive(Clone, Copy, Default, PartialEq, Eq)]
struct Slot {
    key: u64,
    left: u64,
    right: u64,
    leader: u64,
    rank: u64,
    count: u64,
    length: u64,
    correction: u64,
}

// The key at a position; 0 at position 0. Internal to this library's crates.
pub fn key_at(keys: &[u64], position: usize) -> u64
    requires { position ≤ length keys.now }
    ensures { result ≡ key_at keys.now position }
{
    if position == 0 {
        return 0;
    }
    keys[position - 1]
}

// The words of the slot that a position is in; zeros at position 0.
fn slot_at(keys: &[u64], tags: &[u64], columns: LentColumns<'_>, position: usize) -> Slot
    requires linked { Linked keys.now (lists_of columns) }
    requires position_in_bounds { (position ≤ length keys.now) × (length keys.now ≤ length tags.now) }
    ensures { words_in result ≡ slot_at keys.now tags.now (lists_of columns.entry) position }
{
    if position == 0 {
        return Slot::default();
    }
    let i = position - 1;
    let l = key_at(keys, columns.left[i] as usize);
    let r = key_at(keys, columns.right[i] as usize);
    let d = key_at(keys, columns.leader[i] as usize);
    let tag = tags[i];
    Slot {
        key: keys[i],
        left: l,
        right: r,
        leader: d,
        rank: columns.rank[i] as u64,
        count: columns.count[i] as u64,
        length: measure::length_in(tag),
        correction: measure::stored_in(tag),
    }
}

// Write the words of a slot, from word `at` on.
fn write_slot(table: &mut [u64], at: usize, slot: Slot)
    requires { at + slot_words ≤ length table.old }
    ensures { table.new ≡ overwrite table.old at (words_in slot) }
{
    table[at + KEY_FIELD] = slot.key;
    table[at + LEFT_FIELD] = slot.left;
    table[at + RIGHT_FIELD] = slot.right;
    table[at + LEADER_FIELD] = slot.leader;
    table[at + RANK_FIELD] = slot.rank;
    table[at + COUNT_FIELD] = slot.count;
    table[at + LENGTH_FIELD] = slot.length;
    table[at + CORRECTION_FIELD] = slot.correction;
}

// Write the words of the table: the header, then each slot. Internal to this library's crates.
pub fn emit(
    order: u64,
    keys: &[u64],
    tags: &[u64],
    root: usize,
    columns: LentColumns<'_>,
    slots: &[u16],
    table: &mut [u64],
    salt: u64,
)
    requires linked { Linked keys.now (lists_of columns) }
    requires root_in_bounds { (root ≤ length keys.now) × All (λ i. i ≤ length keys.now) slots.now × (length keys.now ≤ length tags.now) }
    requires table_len { length table.old ≡ table_words (length slots.now) }
    ensures { table.new ≡ words_of order salt keys.now tags.now root (lists_of columns.entry) slots.now }
{
    table[ORDER_WORD] = order;
    table[SIZE_WORD] = keys.len() as u64;
    table[ROOT_WORD] = key_at(keys, root);
    table[SALT_WORD] = salt;
    for (s, position) in slots.iter().enumerate() {
        let slot = slot_at(keys, tags, columns, *position as usize);
        write_slot(table, HEADER_WORDS + SLOT_WORDS * s, slot);
    }
}

// The words of a slot, from word `at` on.
fn read_slot(table: &[u64], at: usize) -> Slot
    requires { at + slot_words ≤ length table.now }
    ensures { words_in result ≡ take slot_words (drop at table.now) }
{
    Slot {
        key: table[at + KEY_FIELD],
        left: table[at + LEFT_FIELD],
        right: table[at + RIGHT_FIELD],
        leader: table[at + LEADER_FIELD],
        rank: table[at + RANK_FIELD],
        count: table[at + COUNT_FIELD],
        length: table[at + LENGTH_FIELD],
        correction: table[at + CORRECTION_FIELD],
    }
}

// Whether the table has exactly the words that `emit` would write. Internal to this library's crates.
pub fn matches(
    order: u64,
    keys: &[u64],
    tags: &[u64],
    root: usize,
    columns: LentColumns<'_>,
    slots: &[u16],
    table: &[u64],
    salt: u64,
) -> bool
    requires linked { Linked keys.now (lists_of columns) }
    requires root_in_bounds { (root ≤ length keys.now) × All (λ i. i ≤ length keys.now) slots.now × (length keys.now ≤ length tags.now) }
    requires table_len { length table.now ≡ table_words (length slots.now) }
    ensures { result ≡ same table.now (words_of order salt keys.now tags.now root (lists_of columns.entry) slots.now) }
{
    if table[ORDER_WORD] != order {
        return false;
    }
    if table[SIZE_WORD] != keys.len() as u64 {
        return false;
    }
    if table[ROOT_WORD] != key_at(keys, root) {
        return false;
    }
    if table[SALT_WORD] != salt {
        return false;
    }
    for (s, position) in slots.iter().enumerate() {
        let slot = slot_at(keys, tags, columns, *position as usize);
        if read_slot(table, HEADER_WORDS + SLOT_WORDS * s) != slot {
            return false;
        }
    }
    true
}
