// What insert, delete and a load share: coming to know that a table is sound, writing it of other keys, and laws of the sets and the tables that they leave.
#![tactic(auto)]

ghost use Rattle.std.specs.Prelude.{◌≡◌, ◌<◌, ◌≤◌, length, take, IfOk};
ghost use Rattle.table.specs.Layout.{most_slots, table_words};
ghost use Rattle.table.specs.Contents.{Valid};
ghost use Rattle.table.specs.Tags.{entries_tagged, Beside};
ghost use Rattle.table.specs.Table.{fresh};
ghost use Rattle.table.specs.Sound.{sound_with};
ghost use Rattle.call_changes.specs.Known.{Known, sound_or_refused, with_entries};

use call_replies::Refusal;
use priority::Constants;
use table::{ORDER_WORD, SALT_WORD};

// Judge a table of `many` slots. Where it is sound, its keys, rising, are then at the start of `keys`, and the tags of their measures at
// the start of `tags`; where it is refused, what these hold is left open. Internal to this library's crates: they lend the constants of the
// priorities. Refusals: 7.
pub fn know(
    table: &[u64],
    many: usize,
    keys: &mut [u64],
    tags: &mut [u64],
    constants: &Constants,
) -> Result<(), Refusal>
    requires { (0 < many) × (many ≤ most_slots) × (length table.now ≡ table_words many) × (many ≤ length keys.old) × (many ≤ length tags.old) }
    ensures value { result ≡ sound_or_refused (sound_with many table.now) }
    ensures known { IfOk result (λ _. Known many table.now keys.new tags.new) }
{
    match table_examine::examine(table, many, keys, tags, constants) {
        Some(_) => Ok(()),
        None => Err(Refusal::NotSound),
    }
}

// Write the table of the order and the salt that it shows and of the first `n` of `keys` with the measures of the tags beside them; it is then known to be
// sound. Internal to this library's crates: they lend the constants of the priorities.
pub fn rewrite(
    table: &mut [u64],
    many: usize,
    keys: &[u64],
    tags: &[u64],
    n: usize,
    constants: &Constants,
)
    requires valid { Valid many (with_entries many table.old (entries_tagged (take n keys.now) (take n tags.now))) × Beside (take n keys.now) (take n tags.now) }
    requires sized { (0 < many) × (many ≤ most_slots) × (length table.old ≡ table_words many) × (n ≤ length keys.now) × (n ≤ length tags.now) }
    ensures table_after { table.new ≡ fresh many (with_entries many table.old (entries_tagged (take n keys.now) (take n tags.now))) }
    ensures known { Known many table.new keys.now tags.now }
{
    let order = table[ORDER_WORD];
    let salt = table[SALT_WORD];
    table_write::write(order, &keys[..n], &tags[..n], many, table, constants, salt);
}
