// Deleting a key from a table, by writing the table of the keys that are left.
#![tactic(auto)]

ghost use Rattle.std.specs.Prelude.{◌≡◌, ◌<◌, ◌≤◌, length};
ghost use Rattle.table.specs.Layout.{most_slots, table_words};
ghost use Rattle.call_replies.specs.Replies.{ranked_of};
ghost use Rattle.call_meaning.specs.Calls.{delete_reply, delete_after};
ghost use Rattle.call_changes.specs.Known.{Known};

use call_replies::Refusal;
use priority::Constants;
use table::SIZE_WORD;

// Delete a key from a sound table of `many` slots, its keys at the start of `keys` and the tags of their measures at the start of `tags`, as they
// then are again. Internal to this library's crates: they have judged the table, or written it, and they lend the constants of the priorities.
pub fn delete_known(
    table: &mut [u64],
    many: usize,
    key: u64,
    keys: &mut [u64],
    tags: &mut [u64],
    constants: &Constants,
) -> Result<u64, Refusal>
    requires known { Known many table.old keys.old tags.old }
    requires positive { 1 ≤ key }
    ensures result_value { ranked_of result ≡ delete_reply table.old key }
    ensures table_after { table.new ≡ delete_after table.old key }
    ensures known_after { Known many table.new keys.new tags.new }
{
    let priority = table_entries::priority_of(table, many, key, constants);
    if !table_entries::holds(table, many, key, priority) {
        return Err(Refusal::KeyAbsent);
    }
    let n = table[SIZE_WORD] as usize;
    let rank = table_entries::rank_of(table, many, key, priority);
    call_sets::take_out(keys, tags, n, key);
    call_changes::rewrite(table, many, keys, tags, n - 1, constants);
    Ok(rank)
}

// Delete a key from a table of `many` slots, with `keys` and `tags` to work in.
fn delete_in(
    table: &mut [u64],
    many: usize,
    key: u64,
    keys: &mut [u64],
    tags: &mut [u64],
    constants: &Constants,
) -> Result<u64, Refusal>
    requires { (0 < many) × (many ≤ most_slots) × (length table.old ≡ table_words many) × (1 ≤ key) × (many ≤ length keys.old) × (many ≤ length tags.old) }
    ensures result_value { ranked_of result ≡ delete_reply table.old key }
    ensures table_after { table.new ≡ delete_after table.old key }
{
    call_changes::know(table, many, keys, tags, constants)?;
    delete_known(table, many, key, keys, tags, constants)
}

// Delete a key from a table of `many` slots, the key not zero, with room for the table's keys and tags, and the constants of the
// priorities made for it.
fn delete_with_room(table: &mut [u64], many: usize, key: u64) -> Result<u64, Refusal>
    requires { (0 < many) × (many ≤ most_slots) × (length table.old ≡ table_words many) × (1 ≤ key) }
    ensures result_value { ranked_of result ≡ delete_reply table.old key }
    ensures table_after { table.new ≡ delete_after table.old key }
{
    let constants = Constants::new();
    let mut keys = [0u64; 4096];
    let mut tags = [0u64; 4096];
    delete_in(table, many, key, &mut keys, &mut tags, &constants)
}

// Delete a key; the rank that it had. Refusals: 1, 3, 7, 9.
pub fn delete(table: &mut [u64], key: u64) -> Result<u64, Refusal>
    ensures result_value { ranked_of result ≡ delete_reply table.old key }
    ensures table_after { table.new ≡ delete_after table.old key }
{
    let Some(many) = table_limits::slots_for(table.len()) else {
        return Err(Refusal::WrongLength);
    };
    if key == 0 {
        return Err(Refusal::ZeroKey);
    }
    delete_with_room(table, many, key)
}
