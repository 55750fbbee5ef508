// The records of an image, each written whole from a byte on.
#![tactic(auto)]

ghost use Rattle.std.specs.Prelude.{◌≡◌, ◌∷◌, [], ◌++◌, ◌+◌, ◌≤◌, length, drop};
ghost use Rattle.lists.specs.Lists.{overwrite};
ghost use Rattle.treap.specs.Image.{header_record, block_record, node_fields, node_record};
ghost use Rattle.image.specs.Layout.{header_bytes, head_bytes, block_bytes, node_bytes, record_bytes};
ghost use Rattle.image.specs.Image.{salted};

use image::{
    BLOCK_MARK, BLOCKS_AT, CORRECTION_AT, CORRECTION_BYTES, COUNT_AT, COUNT_BYTES, HEADER_BYTES,
    HEADER_MARK, HELD_AT, KEY_AT, KEY_BYTES, LEADER_AT, LEFT_AT, LENGTH_AT, LENGTH_BYTES, LEVEL_AT,
    MARK, MEASURE_BYTES, MEASURED_MARK, NODE_BYTES, NODE_MARK, ORDER_AT, ORDER_BYTES, RANK_AT,
    RIGHT_AT, ROOT_AT, SALT_AT, SALT_BYTES, SALTED_MARK, SIZE_AT,
};

// Write the two bytes of a mark, from byte `at` on.
fn put_mark(output: &mut [u8], at: usize, kind: u8)
    requires { at + 2 ≤ length output.old }
    ensures { output.new ≡ overwrite output.old at (76 ∷ kind ∷ []) }
{
    output[at] = MARK;
    output[at + 1] = kind;
}

// How many bytes the header of an image with this salt has. Internal to this library's crates.
pub fn head_bytes(salt: u64) -> usize
    ensures { result ≡ head_bytes salt }
{
    if salt == 0 {
        return HEADER_BYTES;
    }
    HEADER_BYTES + SALT_BYTES
}

// Write a mark and the fields that every header has: the order, the number of keys, that of blocks, and the root key.
fn put_head(output: &mut [u8], at: usize, kind: u8, order: u64, size: u64, blocks: u64, root: u64)
    requires { at + header_bytes ≤ length output.old }
    ensures { output.new ≡ overwrite output.old at ((76 ∷ kind ∷ []) ++ drop 2 (header_record order size blocks root)) }
{
    put_mark(output, at, kind);
    image_fields::put(output, at + ORDER_AT, ORDER_BYTES, order);
    image_fields::put(output, at + SIZE_AT, COUNT_BYTES, size);
    image_fields::put(output, at + BLOCKS_AT, COUNT_BYTES, blocks);
    image_fields::put(output, at + ROOT_AT, KEY_BYTES, root);
}

// Write the header record, with the salt where it is not zero. Internal to this library's crates: their outputs have room for it.
pub fn put_header(
    output: &mut [u8],
    at: usize,
    order: u64,
    size: u64,
    blocks: u64,
    root: u64,
    salt: u64,
)
    requires { at + head_bytes salt ≤ length output.old }
    ensures { output.new ≡ overwrite output.old at (salted salt (header_record order size blocks root)) }
{
    if salt == 0 {
        put_head(output, at, HEADER_MARK, order, size, blocks, root);
        return;
    }
    put_head(output, at, SALTED_MARK, order, size, blocks, root);
    image_fields::put(output, at + SALT_AT, SALT_BYTES, salt);
}

// Write the record of a block: its leader key, its level and how many keys it holds. Internal to this library's crates: their outputs
// have room for it.
pub fn put_block(output: &mut [u8], at: usize, leader: u64, level: u64, held: u64)
    requires { at + block_bytes ≤ length output.old }
    ensures { output.new ≡ overwrite output.old at (block_record leader level held) }
{
    put_mark(output, at, BLOCK_MARK);
    image_fields::put(output, at + LEADER_AT, KEY_BYTES, leader);
    image_fields::put(output, at + LEVEL_AT, COUNT_BYTES, level);
    image_fields::put(output, at + HELD_AT, COUNT_BYTES, held);
}

// Write a mark and the fields that the record of every key has: the key, its links, its rank and its count.
fn put_fields(
    output: &mut [u8],
    at: usize,
    kind: u8,
    key: u64,
    left: u64,
    right: u64,
    rank: u64,
    count: u64,
)
    requires { at + node_bytes ≤ length output.old }
    ensures { output.new ≡ overwrite output.old at ((76 ∷ kind ∷ []) ++ node_fields key left right rank count) }
{
    put_mark(output, at, kind);
    image_fields::put(output, at + KEY_AT, KEY_BYTES, key);
    image_fields::put(output, at + LEFT_AT, KEY_BYTES, left);
    image_fields::put(output, at + RIGHT_AT, KEY_BYTES, right);
    image_fields::put(output, at + RANK_AT, COUNT_BYTES, rank);
    image_fields::put(output, at + COUNT_AT, COUNT_BYTES, count);
}

// Write the record of a key: the key, its links, its rank and its count, and where it is measured, which is where its length is not 0,
// the length and the stored correction. The byte after it. Internal to this library's crates: their outputs have room for it.
pub fn put_node(
    output: &mut [u8],
    at: usize,
    key: u64,
    left: u64,
    right: u64,
    rank: u64,
    count: u64,
    long: u64,
    stored: u64,
) -> usize
    requires { at + record_bytes long ≤ length output.old }
    ensures value { result ≡ at + record_bytes long }
    ensures output_after { output.new ≡ overwrite output.old at (node_record key left right rank count long stored) }
{
    if long == 0 {
        put_fields(output, at, NODE_MARK, key, left, right, rank, count);
        return at + NODE_BYTES;
    }
    put_fields(output, at, MEASURED_MARK, key, left, right, rank, count);
    image_fields::put(output, at + LENGTH_AT, LENGTH_BYTES, long);
    image_fields::put(output, at + CORRECTION_AT, CORRECTION_BYTES, stored);
    at + NODE_BYTES + MEASURE_BYTES
}
