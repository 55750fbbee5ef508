// The entries of a sound table: whether it holds a key, in which slot, and what the words of the slot say.
#![tactic(auto)]

ghost use Rattle.std.specs.Prelude.{true, ◌≡◌, ◌+◌, ◌<◌, ◌≤◌, length, get_or};
ghost use Rattle.lists.specs.Lists.{member};
ghost use Rattle.treap.specs.Levels.{rank};
ghost use Rattle.treap_structure.proofs.Blocks.{block_level};
ghost use Rattle.table.specs.Layout.{most_slots, table_words, slot_start};
ghost use Rattle.table.specs.Table.{contents_of};
ghost use Rattle.table.specs.Sound.{sound_with};
ghost use Rattle.table_find.specs.Find.{OnlyAt};
ghost use Rattle.table.specs.Contents.{keys_in, priority_in};
ghost use Rattle.table_entries.specs.Steps.{next_key, InSlot};

use priority::Constants;
use table::{
    HEADER_WORDS, KEY_FIELD, LEFT_FIELD, RANK_FIELD, RIGHT_FIELD, ROOT_WORD, SALT_WORD, SLOT_WORDS,
};

// A word of a slot, by its field. Internal to this library's crates.
pub fn word_of(table: &[u64], slot: usize, field: usize) -> u64
    requires { slot_start slot + field < length table.now }
    ensures { result ≡ get_or table.now (slot_start slot + field) 0 }
{
    table[HEADER_WORDS + SLOT_WORDS * slot + field]
}

// The priority of `key` under the table's own salt. Internal to this library's crates: they lend the constants of the priorities.
pub fn priority_of(table: &[u64], many: usize, key: u64, constants: &Constants) -> u64
    requires { length table.now ≡ table_words many }
    ensures { result ≡ priority_in (contents_of many table.now) key }
{
    constants.priority(key, table[SALT_WORD])
}

// Whether the table holds `key`. Handed the key's own priority.
// Internal to this library's crates: their tables are judged before, and their keys are not zero.
pub fn holds(table: &[u64], many: usize, key: u64, priority: u64) -> bool
    requires { (0 < many) × (many ≤ most_slots) × (length table.now ≡ table_words many) × (sound_with many table.now ≡ true) × (1 ≤ key) × (priority ≡ priority_in (contents_of many table.now) key) }
    ensures { result ≡ member key (keys_in (contents_of many table.now)) }
{
    let Some(slot) = table_find::find(table, many, key, priority) else {
        return false;
    };
    word_of(table, slot, KEY_FIELD) == key
}

// The slot of a key that the table holds. Handed the key's own priority.
// Internal to this library's crates: their tables are judged before.
pub fn slot_of(table: &[u64], many: usize, key: u64, priority: u64) -> usize
    requires { (0 < many) × (many ≤ most_slots) × (length table.now ≡ table_words many) × (sound_with many table.now ≡ true) × (member key (keys_in (contents_of many table.now)) ≡ true) × (priority ≡ priority_in (contents_of many table.now) key) }
    ensures { OnlyAt many table.now key result }
{
    table_find::find(table, many, key, priority).unwrap()
}

// The rank of a key that the table holds. Handed the key's own priority.
// Internal to this library's crates: their tables are judged before.
pub fn rank_of(table: &[u64], many: usize, key: u64, priority: u64) -> u64
    requires { (0 < many) × (many ≤ most_slots) × (length table.now ≡ table_words many) × (sound_with many table.now ≡ true) × (member key (keys_in (contents_of many table.now)) ≡ true) × (priority ≡ priority_in (contents_of many table.now) key) }
    ensures { result ≡ rank (contents_of many table.now).order (priority_in (contents_of many table.now)) (keys_in (contents_of many table.now)) key }
{
    let slot = slot_of(table, many, key, priority);
    word_of(table, slot, RANK_FIELD)
}

// The level of the block that holds the key in a slot: its rank for the root, one more for any other key. Internal to this library's crates.
pub fn level_of(table: &[u64], many: usize, slot: usize, key: u64) -> u64
    requires { InSlot many table.now key slot }
    ensures { result ≡ block_level (contents_of many table.now).order (priority_in (contents_of many table.now)) (keys_in (contents_of many table.now)) key }
{
    let rank = word_of(table, slot, RANK_FIELD);
    if key == table[ROOT_WORD] {
        return rank;
    }
    rank + 1
}

// Where the search for `key` goes on from the key `at` in a slot; zero, which document 01 puts into the table's words for no key, where it
// ends. Internal to this library's crates.
pub fn next_of(table: &[u64], many: usize, slot: usize, at: u64, key: u64) -> u64
    requires { InSlot many table.now at slot }
    ensures { result ≡ next_key (contents_of many table.now) at key }
{
    if key < at {
        return word_of(table, slot, LEFT_FIELD);
    }
    word_of(table, slot, RIGHT_FIELD)
}
