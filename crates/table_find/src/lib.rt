// Finding the slot of a key. Assumes nothing of the words.
#![tactic(auto)]

ghost use Rattle.std.specs.Prelude.{◌≡◌, ◌<◌, ◌≤◌, length};
ghost use Rattle.table.specs.Layout.{table_words};
ghost use Rattle.table_find.specs.Find.{scanned, searched};

use table::{HEADER_WORDS, KEY_FIELD, SLOT_WORDS};

// The first slot from `low` up to `high`, `high` left out, that is empty or holds `key`; none where every slot holds another key.
fn scan(table: &[u64], low: usize, high: usize, key: u64) -> Option<usize>
    requires { table_words high ≤ length table.now }
    ensures { result ≡ scanned table.now low high key }
{
    // By number, as the number of a slot is the answer; `find` over the range would be no plainer.
    for slot in low..high {
        let held = table[HEADER_WORDS + SLOT_WORDS * slot + KEY_FIELD];
        if held == key || held == 0 {
            return Some(slot);
        }
    }
    None
}

// The first slot from the home of `priority` on, slot 0 following the last, that is empty or holds `key`; none where every
// slot holds another key. Internal to this library's crates: their tables have at least one slot, and the words of `many` slots.
pub fn find(table: &[u64], many: usize, key: u64, priority: u64) -> Option<usize>
    requires { (0 < many) × (table_words many ≤ length table.now) }
    ensures { result ≡ searched many table.now key priority }
{
    let home = priority::home(priority, many as u64) as usize;
    scan(table, home, many, key).or_else(|| scan(table, 0, home, key))
}
