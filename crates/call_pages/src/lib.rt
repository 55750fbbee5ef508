// Printing the pages of a table of any words.
#![tactic(auto)]

ghost use Rattle.std.specs.Prelude.{◌≡◌, ◌<◌, ◌≤◌, length};
ghost use Rattle.table.specs.Layout.{most_slots, table_words};
ghost use Rattle.table.specs.Tags.{tagged, Beside};
ghost use Rattle.table_prepare.specs.Prepared.{Keys};
ghost use Rattle.text.specs.Written.{Written};
ghost use Rattle.text_pages.specs.Pages.{pages_of};
ghost use Rattle.call_replies.specs.Replies.{sized_of};
ghost use Rattle.call_pages.specs.Paged.{pages_reply, pages_output};

use call_replies::Refusal;
use priority::Constants;
use table::{ORDER_WORD, SALT_WORD};
use table_prepare::Room;

// Write the pages of the order, the salt and the keys with the measures beside them, which are those of a table of `many` slots.
fn print(
    order: u64,
    keys: &[u64],
    tags: &[u64],
    many: usize,
    output: &mut [u8],
    constants: &Constants,
    salt: u64,
) -> usize
    requires keys { Keys order keys.now × Beside keys.now tags.now × (length (pages_of (tagged order salt keys.now tags.now)) ≤ length output.old) }
    requires many_enough { (0 < many) × (many ≤ most_slots) × (length keys.now ≤ many) }
    ensures { Written output.old 0 (pages_of (tagged order salt keys.now tags.now)) output.new result }
{
    let mut room = Room::new();
    room.prepare(order, keys, many, constants, salt);
    text_pages::write(keys, tags, room.columns.lent(), output)
}

// The pages of a table of `many` slots, with `keys` and `tags` to work in.
fn pages_in(
    table: &[u64],
    many: usize,
    keys: &mut [u64],
    tags: &mut [u64],
    output: &mut [u8],
    constants: &Constants,
) -> Result<usize, Refusal>
    requires { (0 < many) × (many ≤ most_slots) × (length table.now ≡ table_words many) × (many ≤ length keys.old) × (many ≤ length tags.old) }
    ensures reply_value { sized_of result ≡ pages_reply table.now output.old }
    ensures output_after { output.new ≡ pages_output table.now output.old }
{
    let order = table[ORDER_WORD];
    let salt = table[SALT_WORD];
    let Some(n) = table_examine::examine(table, many, keys, tags, constants) else {
        return Err(Refusal::NotSound);
    };
    if output.len() < text_pages::size(n) {
        return Err(Refusal::OutputTooShort);
    }
    Ok(print(order, &keys[..n], &tags[..n], many, output, constants, salt))
}

// The pages of a table of `many` slots, with room for the table's keys and tags, and the constants of the priorities made for it.
fn pages_with_room(table: &[u64], many: usize, output: &mut [u8]) -> Result<usize, Refusal>
    requires { (0 < many) × (many ≤ most_slots) × (length table.now ≡ table_words many) }
    ensures reply_value { sized_of result ≡ pages_reply table.now output.old }
    ensures output_after { output.new ≡ pages_output table.now output.old }
{
    let constants = Constants::new();
    let mut keys = [0u64; 4096];
    let mut tags = [0u64; 4096];
    pages_in(table, many, &mut keys, &mut tags, output, &constants)
}

// Write the table's printed pages at the start of `output`; how many bytes they have. Refusals: 1, 7, 11.
pub fn pages(table: &[u64], output: &mut [u8]) -> Result<usize, Refusal>
    ensures reply_value { sized_of result ≡ pages_reply table.now output.old }
    ensures output_after { output.new ≡ pages_output table.now output.old }
{
    let Some(many) = table_limits::slots_for(table.len()) else {
        return Err(Refusal::WrongLength);
    };
    pages_with_room(table, many, output)
}
