// Seeking the least key of a range among the slots of a table.
#![tactic(auto)]

ghost use Rattle.std.specs.Prelude.{ℕ, ◌≤◌, length};
ghost use Rattle.table.specs.Layout.{table_words};
ghost use Rattle.table.specs.Table.{contents_of};
ghost use Rattle.table.specs.Contents.{keys_in};
ghost use Rattle.table_least.specs.LeastKey.{least_within, lesser, IsOrZero};

use table::{HEADER_WORDS, KEY_FIELD, SLOT_WORDS};

// Of the least key found so far and a slot's key, the least that lies from `low` to `high`; 0 in a slot is no key.
fn lesser_of(least: Option<u64>, key: u64, low: u64, high: u64) -> Option<u64>
    ensures { (n : ℕ) → IsOrZero least n → IsOrZero result (lesser low high n key) }
{
    if key == 0 || !intervals::is_within(key, low, high) {
        return least;
    }
    match least {
        Some(other) => Some(other.min(key)),
        None => Some(key),
    }
}

// The least key of a table from `low` to `high`, both included; none where there is none.
// Internal to this library's crates: their tables have the words of `many` slots.
pub fn least_within(table: &[u64], many: usize, low: u64, high: u64) -> Option<u64>
    requires { table_words many ≤ length table.now }
    ensures { IsOrZero result (least_within low high (keys_in (contents_of many table.now))) }
{
    // By number: a program that skips a slot is then refused by a fact; over a slice of the slots a right one was refused too.
    let mut least = None;
    for slot in 0..many {
        least = lesser_of(
            least,
            table[HEADER_WORDS + SLOT_WORDS * slot + KEY_FIELD],
            low,
            high,
        );
    }
    least
}
