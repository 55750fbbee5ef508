// Writing out the keys of a range of a table of any words.
#![tactic(auto)]

ghost use Rattle.std.specs.Prelude.{◌≡◌, ◌<◌, ◌≤◌, length};
ghost use Rattle.table.specs.Layout.{most_slots, table_words};
ghost use Rattle.call_replies.specs.Replies.{sized_of};
ghost use Rattle.call_meaning.specs.Calls.{range_reply, range_output};

use call_replies::Refusal;
use priority::Constants;

// The range of a table of `many` slots, with room for the table's keys and tags, and the constants of the priorities made for it.
// Not put in line: a range that is refused before would clear this room too.
#[inline(never)]
fn range_with_room(
    table: &[u64],
    many: usize,
    low: u64,
    high: u64,
    output: &mut [u64],
) -> Result<usize, Refusal>
    requires { (0 < many) × (many ≤ most_slots) × (length table.now ≡ table_words many) × (low ≤ high) }
    ensures reply_value { sized_of result ≡ range_reply table.now low high output.old }
    ensures output_after { output.new ≡ range_output table.now low high output.old }
{
    let constants = Constants::new();
    let mut keys = [0u64; 4096];
    let mut tags = [0u64; 4096];
    let Some(n) = table_examine::examine(table, many, &mut keys, &mut tags, &constants) else {
        return Err(Refusal::NotSound);
    };
    let wanted = intervals::count_within(&keys, n, low, high);
    if output.len() < wanted {
        return Err(Refusal::OutputTooShort);
    }
    intervals::copy_within(&keys, n, low, high, output);
    Ok(wanted)
}

// Write at the start of `output` the keys that the table holds from `low` to `high`, both included, rising; how many they are. Refusals: 1,
// 4, 7, 11.
pub fn range(table: &[u64], low: u64, high: u64, output: &mut [u64]) -> Result<usize, Refusal>
    ensures reply_value { sized_of result ≡ range_reply table.now low high output.old }
    ensures output_after { output.new ≡ range_output table.now low high output.old }
{
    let Some(many) = table_limits::slots_for(table.len()) else {
        return Err(Refusal::WrongLength);
    };
    if high < low {
        return Err(Refusal::LowAboveHigh);
    }
    range_with_room(table, many, low, high, output)
}
