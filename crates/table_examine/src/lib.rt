// Examining a table: its keys and the tags of their measures are read and sorted, and its words compared with those of its
// order, salt, keys and measures.
#![tactic(auto)]

ghost use Rattle.std.specs.Prelude.{◌≡◌, ◌<◌, ◌≤◌, length, true};
ghost use Rattle.lists.specs.Lists.{overwrite, rises_b};
ghost use Rattle.table.specs.Layout.{most_slots, table_words};
ghost use Rattle.table.specs.Tags.{tags_in};
ghost use Rattle.table.specs.Table.{contents_of};
ghost use Rattle.table.specs.Sound.{sound_with};
ghost use Rattle.table.specs.Contents.{keys_in};
ghost use Rattle.table_decode.specs.Decode.{contents_read};
ghost use Rattle.table_examine.specs.Examine.{verdict_of};

use priority::Constants;
use table::{ORDER_WORD, SALT_WORD};
use table_prepare::Room;

// Write at the start of `keys` what a table of `many` slots shows as its keys, rising where they differ, and at the start of `tags` the tags of their
// measures, that of no measure for one outside the rules; how many there are. What `tags` holds where a key stands twice, and what the other
// lists then hold, is left open.
fn read_keys(
    table: &[u64],
    many: usize,
    keys: &mut [u64],
    tags: &mut [u64],
    room: &mut Room,
) -> usize
    requires many_in_bounds { (table_words many ≤ length table.now) × (many ≤ most_slots) }
    requires many_fit { (many ≤ length keys.old) × (many ≤ length tags.old) }
    ensures value { result ≡ length (keys_in (contents_of many table.now)) }
    ensures keys_after { keys.new ≡ overwrite keys.old 0 (keys_in (contents_of many table.now)) }
    ensures tags_after { rises_b (keys_in (contents_of many table.now)) ≡ true → tags.new ≡ overwrite tags.old 0 (tags_in (contents_read many table.now)) }
{
    let n = table_decode::collect(table, many, keys, tags);
    let Room {
        weights,
        ranking,
        slots,
        ..
    } = room;
    table_decode::sort_keys(keys, tags, n, weights, ranking, slots);
    n
}

// Examine a table of `many` slots: how many keys it has, where it is sound. Its keys, rising, are then at the start of `keys`, and the tags of their
// measures at the start of `tags`; where it is not, what these hold is left open. Internal to this library's crates: they lend the constants of the
// priorities.
pub fn examine(
    table: &[u64],
    many: usize,
    keys: &mut [u64],
    tags: &mut [u64],
    constants: &Constants,
) -> Option<usize>
    requires { (0 < many) × (many ≤ most_slots) × (length table.now ≡ table_words many) × (many ≤ length keys.old) × (many ≤ length tags.old) }
    ensures value { result ≡ verdict_of many table.now }
    ensures keys_after { sound_with many table.now ≡ true → keys.new ≡ overwrite keys.old 0 (keys_in (contents_of many table.now)) }
    ensures tags_after { sound_with many table.now ≡ true → tags.new ≡ overwrite tags.old 0 (tags_in (contents_of many table.now)) }
{
    let order = table[ORDER_WORD];
    let salt = table[SALT_WORD];
    if !table_limits::is_order(order) {
        return None;
    }
    let mut room = Room::new();
    let n = read_keys(table, many, keys, tags, &mut room);
    if !table_decode::rises(keys, n) {
        return None;
    }
    let root = room.prepare(order, &keys[..n], many, constants, salt);
    let same = table_encode::matches(
        order,
        &keys[..n],
        &tags[..n],
        root,
        room.columns.lent(),
        &room.slots[..many],
        table,
        salt,
    );
    same.then_some(n)
}
