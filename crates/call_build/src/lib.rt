// Making a table of any words: the blank one of an order and a salt, or that of these and a list of keys with their measures.
#![tactic(auto)]

ghost use Rattle.std.specs.Prelude.{◌≡◌, true, ◌<◌, ◌≤◌, length};
ghost use Rattle.measure.specs.Measure.{measures_beside, are_measured};
ghost use Rattle.table.specs.Layout.{most_slots, table_words};
ghost use Rattle.table.specs.Contents.{entries_with};
ghost use Rattle.table.specs.Table.{fresh};
ghost use Rattle.table_prepare.specs.Prepared.{Keys};
ghost use Rattle.call_replies.specs.Replies.{done_of};
ghost use Rattle.call_meaning.specs.Calls.{set_up_reply, set_up_after, build_reply, build_after};

use call_replies::Refusal;
use priority::Constants;
use table::{ORDER_WORD, SALT_WORD};

// Make of any words of a right length the blank table of an order and a salt, which is any number. Refusals: 1, 2.
pub fn set_up(table: &mut [u64], order: u64, salt: u64) -> Result<(), Refusal>
    ensures result_value { done_of result ≡ set_up_reply table.old order }
    ensures table_after { table.new ≡ set_up_after table.old order salt }
{
    if table_limits::slots_for(table.len()).is_none() {
        return Err(Refusal::WrongLength);
    }
    if !table_limits::is_new_order(order) {
        return Err(Refusal::WrongOrder);
    }
    table.fill(0);
    table[ORDER_WORD] = order;
    table[SALT_WORD] = salt;
    Ok(())
}

// Whether lengths and corrections are one of each for each of `n` keys, and all of them measures within the rules.
fn are_measured(n: usize, lengths: &[u64], corrections: &[i32]) -> bool
    ensures { result ≡ are_measured n lengths.now corrections.now }
{
    lengths.len() == n && corrections.len() == n && measure::are_measures(lengths, corrections)
}

// Write the table of an order, a salt and keys with the measures beside them, with `tags` to work in.
fn write_within(
    order: u64,
    keys: &[u64],
    lengths: &[u64],
    corrections: &[i32],
    many: usize,
    tags: &mut [u64],
    table: &mut [u64],
    constants: &Constants,
    salt: u64,
)
    requires keys { Keys order keys.now }
    requires measured { are_measured (length keys.now) lengths.now corrections.now ≡ true }
    requires sized { (0 < many) × (length keys.now ≤ many) × (length table.old ≡ table_words many) × (many ≤ most_slots) × (many ≤ length tags.old) }
    ensures { table.new ≡ fresh many (record { order = order; salt = salt; entries = entries_with keys.now (measures_beside lengths.now corrections.now) }) }
{
    measure::put_tags(lengths, corrections, tags);
    let n = keys.len();
    table_write::write(order, keys, &tags[..n], many, table, constants, salt);
}

// Write the table of an order, a salt and keys with the measures beside them, with room for the tags, and the constants of the priorities made for it.
// Not put in line: a build that is refused would clear this room too.
#[inline(never)]
fn write(
    order: u64,
    keys: &[u64],
    lengths: &[u64],
    corrections: &[i32],
    many: usize,
    table: &mut [u64],
    salt: u64,
)
    requires keys { Keys order keys.now }
    requires measured { are_measured (length keys.now) lengths.now corrections.now ≡ true }
    requires sized { (0 < many) × (length keys.now ≤ many) × (length table.old ≡ table_words many) × (many ≤ most_slots) }
    ensures { table.new ≡ fresh many (record { order = order; salt = salt; entries = entries_with keys.now (measures_beside lengths.now corrections.now) }) }
{
    let constants = Constants::new();
    let mut tags = [0u64; 4096];
    write_within(
        order,
        keys,
        lengths,
        corrections,
        many,
        &mut tags,
        table,
        &constants,
        salt,
    );
}

// Make of any words of a right length the table of an order, a salt, which is any number, and a strictly rising list of keys with their measures: the lengths and the
// corrections, one of each beside each key. Refusals: 1, 2, 5, 12, 10.
pub fn build(
    table: &mut [u64],
    order: u64,
    salt: u64,
    list: &[u64],
    lengths: &[u64],
    corrections: &[i32],
) -> Result<(), Refusal>
    ensures result_value { done_of result ≡ build_reply table.old order list.now lengths.now corrections.now }
    ensures table_after { table.new ≡ build_after table.old order salt list.now lengths.now corrections.now }
{
    let Some(many) = table_limits::slots_for(table.len()) else {
        return Err(Refusal::WrongLength);
    };
    if !table_limits::is_new_order(order) {
        return Err(Refusal::WrongOrder);
    }
    if !table_decode::is_rising(list) {
        return Err(Refusal::NotRising);
    }
    if !are_measured(list.len(), lengths, corrections) {
        return Err(Refusal::WrongMeasure);
    }
    if many < list.len() {
        return Err(Refusal::TooManyKeys);
    }
    write(order, list, lengths, corrections, many, table, salt);
    Ok(())
}
