// Inserting a key with its measure into a table, by writing the table of the keys that result.
#![tactic(auto)]

ghost use Rattle.std.specs.Prelude.{true, ◌≡◌, ◌<◌, ◌≤◌, length};
ghost use Rattle.measure.specs.Tag.{measure_at, is_tag};
ghost use Rattle.table.specs.Layout.{most_slots, table_words};
ghost use Rattle.call_replies.specs.Replies.{ranked_of};
ghost use Rattle.call_meaning.specs.Calls.{insert_reply, insert_after};
ghost use Rattle.call_changes.specs.Known.{Known, RoomFor};

use call_replies::Refusal;
use priority::Constants;
use table::SIZE_WORD;

// Insert a key with the measure of a tag into a sound table of `many` slots, its keys at the start of `keys` and their tags at the start of
// `tags`, as they then are again. Internal to this library's crates: they have judged the table, or written it, and they lend the constants of
// the priorities.
pub fn insert_known(
    table: &mut [u64],
    many: usize,
    key: u64,
    tag: u64,
    keys: &mut [u64],
    tags: &mut [u64],
    constants: &Constants,
) -> Result<u64, Refusal>
    requires known { Known many table.old keys.old tags.old }
    requires insertable { (1 ≤ key) × (is_tag tag ≡ true) × RoomFor key many table.old keys.old × RoomFor key many table.old tags.old }
    ensures result_value { ranked_of result ≡ insert_reply table.old key (measure_at tag) }
    ensures table_after { table.new ≡ insert_after table.old key (measure_at tag) }
    ensures known_after { Known many table.new keys.new tags.new }
{
    let priority = table_entries::priority_of(table, many, key, constants);
    if table_entries::holds(table, many, key, priority) {
        return Err(Refusal::KeyHeld);
    }
    let n = table[SIZE_WORD] as usize;
    if n == many {
        return Err(Refusal::TooManyKeys);
    }
    call_sets::put_in(keys, tags, n, key, tag);
    call_changes::rewrite(table, many, keys, tags, n + 1, constants);
    Ok(table_entries::rank_of(table, many, key, priority))
}

// Insert a key with the measure of a tag into a table of `many` slots, with `keys` and `tags` to work in.
fn insert_in(
    table: &mut [u64],
    many: usize,
    key: u64,
    tag: u64,
    keys: &mut [u64],
    tags: &mut [u64],
    constants: &Constants,
) -> Result<u64, Refusal>
    requires { (0 < many) × (many ≤ most_slots) × (length table.old ≡ table_words many) × (1 ≤ key) × (is_tag tag ≡ true) × (many ≤ length keys.old) × (many ≤ length tags.old) }
    ensures result_value { ranked_of result ≡ insert_reply table.old key (measure_at tag) }
    ensures table_after { table.new ≡ insert_after table.old key (measure_at tag) }
{
    call_changes::know(table, many, keys, tags, constants)?;
    insert_known(table, many, key, tag, keys, tags, constants)
}

// Insert a key with the measure of a tag into a table of `many` slots, the key not zero, with room for the table's keys and tags, and the
// constants of the priorities made for it.
fn insert_with_room(table: &mut [u64], many: usize, key: u64, tag: u64) -> Result<u64, Refusal>
    requires { (0 < many) × (many ≤ most_slots) × (length table.old ≡ table_words many) × (1 ≤ key) × (is_tag tag ≡ true) }
    ensures result_value { ranked_of result ≡ insert_reply table.old key (measure_at tag) }
    ensures table_after { table.new ≡ insert_after table.old key (measure_at tag) }
{
    let constants = Constants::new();
    let mut keys = [0u64; 4096];
    let mut tags = [0u64; 4096];
    insert_in(table, many, key, tag, &mut keys, &mut tags, &constants)
}

// Insert a key with its length and its correction, both zero when it is not measured; the rank that it then has. Refusals: 1, 3, 12, 7, 8, 10.
pub fn insert(table: &mut [u64], key: u64, length: u64, correction: i32) -> Result<u64, Refusal>
    ensures result_value { ranked_of result ≡ insert_reply table.old key (record { length = length; correction = correction }) }
    ensures table_after { table.new ≡ insert_after table.old key (record { length = length; correction = correction }) }
{
    let Some(many) = table_limits::slots_for(table.len()) else {
        return Err(Refusal::WrongLength);
    };
    if key == 0 {
        return Err(Refusal::ZeroKey);
    }
    if !measure::is_measure(length, correction) {
        return Err(Refusal::WrongMeasure);
    }
    let tag = measure::tag_of(length, correction);
    insert_with_room(table, many, key, tag)
}
