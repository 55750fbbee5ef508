// Which numbers of words and which orders a table has.
#![tactic(auto)]

ghost use Rattle.std.specs.Prelude.{◌≡◌};
ghost use Rattle.table.specs.Contents.{table_order, new_order};
ghost use Rattle.table_limits.specs.Lengths.{slots_for, slots_if};

use table::{GREATEST_ORDER, HEADER_WORDS, LEAST_ORDER, MOST_SLOTS, SLOT_WORDS};

// The number of slots of a table of so many words; none where no table has so many.
pub fn slots_for(words: usize) -> Option<usize>
    ensures { result ≡ slots_if (slots_for words) }
{
    if words < HEADER_WORDS + SLOT_WORDS {
        return None;
    }
    let rest = words - HEADER_WORDS;
    if rest % SLOT_WORDS != 0 {
        return None;
    }
    let many = rest / SLOT_WORDS;
    if MOST_SLOTS < many {
        return None;
    }
    Some(many)
}

// Whether a table may have this order.
pub fn is_order(order: u64) -> bool
    ensures { result ≡ table_order order }
{
    intervals::is_within(order, LEAST_ORDER, GREATEST_ORDER)
}

// Whether a table of this order may be set up.
pub fn is_new_order(order: u64) -> bool
    ensures { result ≡ new_order order }
{
    is_order(order)
}
