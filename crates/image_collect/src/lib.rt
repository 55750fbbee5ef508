// Reading an image: its salt, the keys and the measures of its records.
#![tactic(auto)]

ghost use Rattle.std.specs.Prelude.{true, ◌∷◌, [], ◌≡◌, ◌+◌, ◌≤◌, length, take};
ghost use Rattle.lists.specs.Lists.{overwrite, same};
ghost use Rattle.measure.specs.Tag.{tag_of};
ghost use Rattle.table.specs.Contents.{entry_keys};
ghost use Rattle.table.specs.Tags.{entry_tags};
ghost use Rattle.image.specs.Layout.{node_bytes};
ghost use Rattle.image.specs.Image.{is_salted, header_span, salt_shown, is_measured, node_span, entry_shown, node_entries};
ghost use Rattle.image_collect.specs.Reading.{is_node, are_nodes, checked, readable, entries_of, collected};

use image::{
    BLOCK_BYTES, BLOCKS_AT, CORRECTION_AT, CORRECTION_BYTES, COUNT_BYTES, HEADER_BYTES, HELD_AT,
    KEY_AT, KEY_BYTES, LENGTH_AT, LENGTH_BYTES, MARK, MEASURE_BYTES, MEASURED_MARK, NODE_BYTES,
    NODE_MARK, SALT_AT, SALT_BYTES, SALTED_MARK,
};
use measure::UNMEASURED;

// Whether the bytes begin with a mark of this kind.
fn is_marked(bytes: &[u8], kind: u8) -> bool
    requires { 2 ≤ length bytes.now }
    ensures { result ≡ same (take 2 bytes.now) (76 ∷ kind ∷ []) }
{
    bytes[0] == MARK && bytes[1] == kind
}

// Whether the header at the start of the bytes has a salt.
fn is_salted(image: &[u8]) -> bool
    ensures { result ≡ is_salted image.now }
{
    if image.len() < 2 {
        return false;
    }
    is_marked(image, SALTED_MARK)
}

// How many bytes that header has. Internal to this library's crates, though it takes any bytes.
pub fn header_span(image: &[u8]) -> usize
    ensures { result ≡ header_span image.now }
{
    if is_salted(image) {
        return HEADER_BYTES + SALT_BYTES;
    }
    HEADER_BYTES
}

// The salt that it shows. Internal to this library's crates: their images have a whole header.
pub fn salt_shown(image: &[u8]) -> u64
    requires { header_span image.now ≤ length image.now }
    ensures { result ≡ salt_shown image.now }
{
    if is_salted(image) {
        return image_fields::get(image, SALT_AT, SALT_BYTES);
    }
    0
}

// Whether the node record at the start of the bytes is a measured key's.
fn is_measured(node: &[u8]) -> bool
    requires { node_bytes ≤ length node.now }
    ensures { result ≡ is_measured node.now }
{
    is_marked(node, MEASURED_MARK)
}

// How many bytes that record has. Internal to this library's crates.
pub fn node_span(node: &[u8]) -> usize
    requires { node_bytes ≤ length node.now }
    ensures { result ≡ node_span node.now }
{
    if is_measured(node) {
        return NODE_BYTES + MEASURE_BYTES;
    }
    NODE_BYTES
}

// Whether the bytes begin with a node record whose measure, where it has one, is within the rules.
fn is_node(node: &[u8]) -> bool
    ensures { result ≡ is_node node.now }
{
    let size = node.len();
    if size < NODE_BYTES {
        return false;
    }
    if !is_measured(node) {
        return is_marked(node, NODE_MARK);
    }
    if size < NODE_BYTES + MEASURE_BYTES {
        return false;
    }
    let long = image_fields::get(node, LENGTH_AT, LENGTH_BYTES);
    let stored = image_fields::get(node, CORRECTION_AT, CORRECTION_BYTES);
    measure::is_stored(long, stored)
}

// The tag of the measure that a node record shows.
fn tag_shown(node: &[u8]) -> u64
    requires { is_node node.now ≡ true }
    ensures { result ≡ tag_of (entry_shown node.now).measure }
{
    if !is_measured(node) {
        return UNMEASURED;
    }
    let long = image_fields::get(node, LENGTH_AT, LENGTH_BYTES);
    let stored = image_fields::get(node, CORRECTION_AT, CORRECTION_BYTES);
    measure::tag_from(long, stored)
}

// Whether the bytes begin with so many node records, and where these end; where they do, their keys are in `keys` and the tags of their
// measures in `tags` from index `from` on; else what the two lists hold is left open.
fn check_records(
    records: &[u8],
    held: usize,
    keys: &mut [u64],
    tags: &mut [u64],
    from: usize,
) -> Option<usize>
    requires { (from + held ≤ length keys.old) × (length tags.old ≡ length keys.old) }
    ensures value { result ≡ checked held records.now }
    ensures keys_after { are_nodes held records.now ≡ true → keys.new ≡ overwrite keys.old from (entry_keys (node_entries held records.now)) }
    ensures tags_after { are_nodes held records.now ≡ true → tags.new ≡ overwrite tags.old from (entry_tags (node_entries held records.now)) }
{
    let mut at = 0;
    for i in 0..held {
        if !is_node(&records[at..]) {
            return None;
        }
        keys[from + i] = image_fields::get(records, at + KEY_AT, KEY_BYTES);
        tags[from + i] = tag_shown(&records[at..]);
        at += node_span(&records[at..]);
    }
    Some(at)
}

// Write at the start of `keys` the keys of an image's node records, in their order, and the tags of their measures beside them in
// `tags`; how many there are. None where a record does not lie within the bytes, has another mark or a measure outside the rules, or
// `keys` is too short: what the two lists then hold is left open. Internal to this library's crates, though it takes any bytes.
pub fn collect(image: &[u8], keys: &mut [u64], tags: &mut [u64]) -> Option<usize>
    requires { length tags.old ≡ length keys.old }
    ensures value { result ≡ collected (length keys.old) image.now }
    ensures keys_after { readable (length keys.old) image.now ≡ true → keys.new ≡ overwrite keys.old 0 (entry_keys (entries_of image.now)) }
    ensures tags_after { readable (length keys.old) image.now ≡ true → tags.new ≡ overwrite tags.old 0 (entry_tags (entries_of image.now)) }
{
    let size = image.len();
    let head = header_span(image);
    if size < head {
        return None;
    }
    let blocks = image_fields::get(image, BLOCKS_AT, COUNT_BYTES);
    let mut at = head;
    let mut n = 0;
    for _ in 0..blocks {
        if size - at < BLOCK_BYTES {
            return None;
        }
        let held = image_fields::get(image, at + HELD_AT, COUNT_BYTES) as usize;
        let start = at + BLOCK_BYTES;
        if keys.len() - n < held {
            return None;
        }
        let span = check_records(&image[start..], held, keys, tags, n)?;
        at = start + span;
        n += held;
    }
    Some(n)
}
