// Writing the image of a table, and making a table of an image. Each call takes any words and any bytes; what it refuses it leaves
// as it was.
#![tactic(auto)]

mod apart;

ghost use Rattle.std.specs.Prelude.{◌≡◌, ◌<◌, ◌≤◌, length};
ghost use Rattle.table.specs.Layout.{most_slots, table_words};
ghost use Rattle.call_replies.specs.Replies.{done_of, sized_of};
ghost use Rattle.call_meaning.specs.Calls.{write_reply, write_output, read_reply, read_after};

use call_replies::Refusal;
use image::{ORDER_AT, ORDER_BYTES};
use priority::Constants;
use table::{ORDER_WORD, SALT_WORD};

// Write the image of a table of `many` slots, with `keys` and `tags` to work in.
fn write_in(
    table: &[u64],
    many: usize,
    keys: &mut [u64],
    tags: &mut [u64],
    output: &mut [u8],
    constants: &Constants,
) -> Result<usize, Refusal>
    requires { (0 < many) × (many ≤ most_slots) × (length table.now ≡ table_words many) × (many ≤ length keys.old) × (many ≤ length tags.old) }
    ensures reply_value { sized_of result ≡ write_reply table.now output.old }
    ensures output_after { output.new ≡ write_output table.now output.old }
{
    let order = table[ORDER_WORD];
    let salt = table[SALT_WORD];
    let Some(n) = table_examine::examine(table, many, keys, tags, constants) else {
        return Err(Refusal::NotSound);
    };
    let size = image_write::write(order, &keys[..n], &tags[..n], output, constants, salt);
    if output.len() < size {
        return Err(Refusal::OutputTooShort);
    }
    Ok(size)
}

// The image of a table of `many` slots, with room for the table's keys and tags, and the constants of the priorities made for it.
fn write_with_room(table: &[u64], many: usize, output: &mut [u8]) -> Result<usize, Refusal>
    requires { (0 < many) × (many ≤ most_slots) × (length table.now ≡ table_words many) }
    ensures reply_value { sized_of result ≡ write_reply table.now output.old }
    ensures output_after { output.new ≡ write_output table.now output.old }
{
    let constants = Constants::new();
    let mut keys = [0u64; 4096];
    let mut tags = [0u64; 4096];
    write_in(table, many, &mut keys, &mut tags, output, &constants)
}

// Write the table's image at the start of `output`; how many bytes it has. Refusals: 1, 7, 11.
pub fn write(table: &[u64], output: &mut [u8]) -> Result<usize, Refusal>
    ensures reply_value { sized_of result ≡ write_reply table.now output.old }
    ensures output_after { output.new ≡ write_output table.now output.old }
{
    let Some(many) = table_limits::slots_for(table.len()) else {
        return Err(Refusal::WrongLength);
    };
    write_with_room(table, many, output)
}

// Make a table of `many` slots of an image, with `keys` and `tags` to work in.
fn read_in(
    table: &mut [u64],
    many: usize,
    image: &[u8],
    keys: &mut [u64],
    tags: &mut [u64],
    constants: &Constants,
) -> Result<(), Refusal>
    requires { (0 < many) × (many ≤ most_slots) × (length table.old ≡ table_words many) × (length keys.old ≡ most_slots) × (length tags.old ≡ most_slots) }
    ensures reply_value { done_of result ≡ read_reply table.old image.now }
    ensures table_after { table.new ≡ read_after table.old image.now }
{
    let Some(n) = apart::recognize(image, keys, tags, constants) else {
        return Err(Refusal::NotAnImage);
    };
    if many < n {
        return Err(Refusal::TooManyKeys);
    }
    let salt = image_collect::salt_shown(image);
    let order = image_fields::get(image, ORDER_AT, ORDER_BYTES);
    apart::write(order, &keys[..n], &tags[..n], many, table, constants, salt);
    Ok(())
}

// Make a table of `many` slots of an image, with room for the most keys that an image has, and the constants of the priorities made for it.
fn read_with_room(table: &mut [u64], many: usize, image: &[u8]) -> Result<(), Refusal>
    requires { (0 < many) × (many ≤ most_slots) × (length table.old ≡ table_words many) }
    ensures reply_value { done_of result ≡ read_reply table.old image.now }
    ensures table_after { table.new ≡ read_after table.old image.now }
{
    let constants = Constants::new();
    let mut keys = [0u64; 4096];
    let mut tags = [0u64; 4096];
    read_in(table, many, image, &mut keys, &mut tags, &constants)
}

// Make of any words of a right length the table whose image the bytes are. Refusals: 1, 6, 10.
pub fn read(table: &mut [u64], image: &[u8]) -> Result<(), Refusal>
    ensures reply_value { done_of result ≡ read_reply table.old image.now }
    ensures table_after { table.new ≡ read_after table.old image.now }
{
    let Some(many) = table_limits::slots_for(table.len()) else {
        return Err(Refusal::WrongLength);
    };
    read_with_room(table, many, image)
}
