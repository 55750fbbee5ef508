// The way down the treap of a sound table to a key.
#![tactic(auto)]

ghost use Rattle.std.specs.Prelude.{true, ◌≡◌, pred, ◌<◌, ◌≤◌, length};
ghost use Rattle.lists.specs.Lists.{member};
ghost use Rattle.table.specs.Layout.{most_slots, table_words};
ghost use Rattle.table.specs.Table.{contents_of};
ghost use Rattle.table.specs.Sound.{sound_with};
ghost use Rattle.table_descend.specs.Lookup.{standing_of, looked_up, earlier, looked_up_after};
ghost use Rattle.table_descend.specs.Places.{Placed};
ghost use Rattle.table_descend.specs.Entering.{first_block, other_than, low_after, new_block};
ghost use Rattle.table.specs.Contents.{keys_in};
ghost use Rattle.table_entries.specs.Steps.{InSlot};

use priority::Constants;
use table::{CORRECTION_FIELD, COUNT_FIELD, LEADER_FIELD, LENGTH_FIELD, RANK_FIELD, ROOT_WORD};

// What a table says of a key that it holds.
#[derive(Clone, Copy)]
pub struct Standing {
    pub rank: u64,
    pub count: u64,
    pub leader: u64,
    // Zeros when the key is not measured.
    pub length: u64,
    pub correction: i64,
}

// What the way down from the root finds: the standing of the key where it is held, and how many blocks were met, of those that no earlier
// lookup met.
#[derive(Clone, Copy)]
pub struct Looked {
    pub standing: Option<Standing>,
    pub blocks: usize,
}

// A key that the way down comes to, the slot that holds it, and the level of its block.
#[derive(Clone, Copy)]
struct Place {
    key: u64,
    slot: usize,
    level: u64,
}

// The place of a key that the table holds: its priority is worked out, and handed to the search. The constants of the priorities are lent.
// In line, so that a place stays in registers on the way down.
#[inline(always)]
fn place_of(table: &[u64], many: usize, key: u64, constants: &Constants) -> Place
    requires { (0 < many) × (many ≤ most_slots) × (length table.now ≡ table_words many) × (sound_with many table.now ≡ true) × (member key (keys_in (contents_of many table.now)) ≡ true) }
    ensures placed { Placed many table.now result }
    ensures its_key { result.key ≡ key }
{
    let priority = table_entries::priority_of(table, many, key, constants);
    let slot = table_entries::slot_of(table, many, key, priority);
    let level = table_entries::level_of(table, many, slot, key);
    Place { key, slot, level }
}

// The standing of the key in a slot.
fn standing_of(table: &[u64], many: usize, slot: usize, key: u64) -> Standing
    requires { InSlot many table.now key slot }
    ensures { result ≡ standing_of (contents_of many table.now) key }
{
    let length = table_entries::word_of(table, slot, LENGTH_FIELD);
    let stored = table_entries::word_of(table, slot, CORRECTION_FIELD);
    Standing {
        rank: table_entries::word_of(table, slot, RANK_FIELD),
        count: table_entries::word_of(table, slot, COUNT_FIELD),
        leader: table_entries::word_of(table, slot, LEADER_FIELD),
        length,
        correction: measure::correction_from(length, stored),
    }
}

// The block that holds the root, counted for the first lookup alone: `last` is zero for no lookup, as in the definition `earlier`.
fn first_block(last: u64) -> usize
    ensures { result ≡ first_block last }
{
    if last == 0 {
        return 1;
    }
    0
}

// Of the last lookup's key and the one before it, the last that is not `at`.
fn other_than(at: u64, last: u64, before: u64) -> u64
    ensures { result ≡ other_than at last before }
{
    if last == at {
        return before;
    }
    last
}

// The last key at which the way down went right, once it goes on from `at`.
fn low_after(low: u64, at: u64, key: u64) -> u64
    ensures { result ≡ low_after low at key }
{
    if at < key {
        return at;
    }
    low
}

// Whether the way down that goes on from `at` to `next` enters a block that the search for an earlier key, `other`, did not.
#[inline(always)]
fn is_new_block(
    table: &[u64],
    many: usize,
    at: Place,
    next: Place,
    low: u64,
    other: u64,
    constants: &Constants,
) -> bool
    requires { (0 < many) × Placed many table.now at × Placed many table.now next }
    ensures { result ≡ new_block (contents_of many table.now) at.key low other at.level next.level }
{
    if next.level == at.level {
        return false;
    }
    if other <= low {
        return true;
    }
    let there = table_entries::next_of(table, many, at.slot, at.key, other);
    if there == next.key {
        return false;
    }
    if there == 0 {
        return true;
    }
    place_of(table, many, there, constants).level != next.level
}

// The way down the table's treap from its root to `key`, or to where `key` would hang, after lookups of lesser keys, of which `last` and,
// before it, `before` are the last two, zero for none. The blocks are those that none of them met; a table without keys has none. The
// constants of the priorities are lent. Internal to this library's crates: their tables are judged before, and their keys rise.
pub fn look_up_after(
    table: &[u64],
    many: usize,
    key: u64,
    last: u64,
    before: u64,
    constants: &Constants,
) -> Looked
    requires judged { (0 < many) × (many ≤ most_slots) × (length table.now ≡ table_words many) × (sound_with many table.now ≡ true) }
    requires rising { (before ≤ pred last) × (last ≤ pred key) }
    ensures { result ≡ looked_up_after (contents_of many table.now) (earlier last before) key }
{
    let root = table[ROOT_WORD];
    if root == 0 {
        return Looked {
            standing: None,
            blocks: 0,
        };
    }
    let mut at = place_of(table, many, root, constants);
    let mut low = 0;
    let mut met = first_block(last);
    while at.key != key {
        let link = table_entries::next_of(table, many, at.slot, at.key, key);
        if link == 0 {
            return Looked {
                standing: None,
                blocks: met,
            };
        }
        let next = place_of(table, many, link, constants);
        let other = other_than(at.key, last, before);
        if is_new_block(table, many, at, next, low, other, constants) {
            met += 1;
        }
        low = low_after(low, at.key, key);
        at = next;
    }
    Looked {
        standing: Some(standing_of(table, many, at.slot, at.key)),
        blocks: met,
    }
}

// The way down the table's treap to `key`. The constants of the priorities are lent.
// Internal to this library's crates: their tables are judged before.
pub fn look_up(table: &[u64], many: usize, key: u64, constants: &Constants) -> Looked
    requires { (0 < many) × (many ≤ most_slots) × (length table.now ≡ table_words many) × (sound_with many table.now ≡ true) }
    ensures { result ≡ looked_up (contents_of many table.now) key }
{
    look_up_after(table, many, key, 0, 0, constants)
}
