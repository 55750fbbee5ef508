// The lines of a listing: how long each is, and writing it into a lent output at an index. Internal to this library's crates:
// their outputs have room for it. A function that writes answers the index after the line.
#![tactic(auto)]

ghost use Rattle.std.specs.Prelude.{◌≡◌, ◌++◌, ◌+◌, ◌≤◌, length};
ghost use Rattle.text.specs.Digits.{decimal, hexadecimal};
ghost use Rattle.text.specs.Written.{Written};
ghost use Rattle.text_lines.specs.Lines.{header_line, block_line, key_line};

// The bytes of a line beside its numbers in base ten: the header's, a block's, a key's.
const HEADER_TEXT: usize = 49;

const BLOCK_TEXT: usize = 36;

const KEY_TEXT: usize = 34;

// Write a label and a number in base ten.
fn put_number(output: &mut [u8], at: usize, label: &[u8], n: u64) -> usize
    requires { at + length (label.now ++ decimal n) ≤ length output.old }
    ensures { Written output.old at (label.now ++ decimal n) output.new result }
{
    let end = text::put_bytes(output, at, label);
    text::put_decimal(output, end, n)
}

// Write a label and a key. Internal.
pub fn put_key(output: &mut [u8], at: usize, label: &[u8], key: u64) -> usize
    requires { at + length (label.now ++ hexadecimal key) ≤ length output.old }
    ensures { Written output.old at (label.now ++ hexadecimal key) output.new result }
{
    let end = text::put_bytes(output, at, label);
    text::put_hexadecimal(output, end, key)
}

// Write the line for the header. Internal.
pub fn put_header_line(
    output: &mut [u8],
    at: usize,
    order: u64,
    keys: u64,
    blocks: u64,
    fill: u64,
    root: u64,
) -> usize
    requires { at + length (header_line order keys blocks fill root) ≤ length output.old }
    ensures { Written output.old at (header_line order keys blocks fill root) output.new result }
{
    let ordered = put_number(output, at, b"order ", order);
    let sized = put_number(output, ordered, b" keys ", keys);
    let blocked = put_number(output, sized, b" blocks ", blocks);
    let filled = put_number(output, blocked, b" fill ", fill);
    let rooted = put_key(output, filled, b" root ", root);
    text::put_bytes(output, rooted, b"\n")
}

// Write the line for a block. Internal.
pub fn put_block_line(output: &mut [u8], at: usize, leader: u64, level: u64, keys: u64) -> usize
    requires { at + length (block_line leader level keys) ≤ length output.old }
    ensures { Written output.old at (block_line leader level keys) output.new result }
{
    let named = put_key(output, at, b"block ", leader);
    let levelled = put_number(output, named, b" level ", level);
    let sized = put_number(output, levelled, b" keys ", keys);
    text::put_bytes(output, sized, b"\n")
}

// Write the line for a key. Internal.
pub fn put_key_line(output: &mut [u8], at: usize, key: u64, rank: u64, count: u64) -> usize
    requires { at + length (key_line key rank count) ≤ length output.old }
    ensures { Written output.old at (key_line key rank count) output.new result }
{
    let named = put_key(output, at, b"key ", key);
    let ranked = put_number(output, named, b" rank ", rank);
    let counted = put_number(output, ranked, b" count ", count);
    text::put_bytes(output, counted, b"\n")
}

// How long the line for the header is.
pub fn header_length(order: u64, keys: u64, blocks: u64, fill: u64, root: u64) -> usize
    ensures { result ≡ length (header_line order keys blocks fill root) }
{
    HEADER_TEXT
        + text::decimal_length(order)
        + text::decimal_length(keys)
        + text::decimal_length(blocks)
        + text::decimal_length(fill)
}

// How long the line for a block is.
pub fn block_length(leader: u64, level: u64, keys: u64) -> usize
    ensures { result ≡ length (block_line leader level keys) }
{
    BLOCK_TEXT + text::decimal_length(level) + text::decimal_length(keys)
}

// How long the line for a key is.
pub fn key_length(key: u64, rank: u64, count: u64) -> usize
    ensures { result ≡ length (key_line key rank count) }
{
    KEY_TEXT + text::decimal_length(rank) + text::decimal_length(count)
}
