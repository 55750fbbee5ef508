// Deciding whether bytes are an image: their keys, with the tags of their measures, are collected and sorted, and the image of what they show
// is compared with them.
#![tactic(auto)]

ghost use Rattle.std.specs.Prelude.{true, ◌≡◌, ◌≤◌, length};
ghost use Rattle.lists.specs.Lists.{overwrite};
ghost use Rattle.table.specs.Contents.{keys_in};
ghost use Rattle.table.specs.Tags.{tags_in};
ghost use Rattle.table.specs.Layout.{most_slots};
ghost use Rattle.image.specs.Layout.{most_bytes};
ghost use Rattle.image.specs.Image.{read_image, is_image};
ghost use Rattle.image_collect.specs.Reading.{RoomFor};
ghost use Rattle.image_recognize.specs.Recognize.{recognized};

use image::{MEDIUM_BYTES, MOST_BYTES, ORDER_AT, ORDER_BYTES};
use priority::Constants;
use table::{GREATEST_ORDER, LEAST_ORDER};

// The most keys of an image of up to so many bytes as MEDIUM_BYTES and MOST_BYTES say.
const MEDIUM_KEYS: usize = 512;

const MOST_KEYS: usize = 4096;

// Recognize an image, with lists to work in; where it is one, its keys, rising, are then at the start of `keys`, and the tags of their
// measures at the start of `tags`. What the other lists then hold, and these two where it is none, is left open.
fn recognize_within(
    image: &[u8],
    weights: &mut [u64],
    ranking: &mut [u16],
    spare: &mut [u16],
    copy: &mut [u8],
    keys: &mut [u64],
    tags: &mut [u64],
    constants: &Constants,
) -> Option<usize>
    requires keys_room { (length keys.old ≡ most_slots) × (length tags.old ≡ most_slots) × (length image.now ≤ length copy.old) }
    requires room_for { RoomFor (length image.now) (length weights.old) × RoomFor (length image.now) (length ranking.old) × RoomFor (length image.now) (length spare.old) }
    ensures value { result ≡ recognized image.now }
    ensures keys_after { is_image image.now ≡ true → keys.new ≡ overwrite keys.old 0 (keys_in (read_image image.now)) }
    ensures tags_after { is_image image.now ≡ true → tags.new ≡ overwrite tags.old 0 (tags_in (read_image image.now)) }
{
    let n = image_collect::collect(image, keys, tags)?;
    let salt = image_collect::salt_shown(image);
    let order = image_fields::get(image, ORDER_AT, ORDER_BYTES);
    if !intervals::is_within(order, LEAST_ORDER, GREATEST_ORDER) {
        return None;
    }
    table_decode::sort_keys(keys, tags, n, weights, ranking, spare);
    if !table_decode::is_rising(&keys[..n]) {
        return None;
    }
    let size = image.len();
    let written = image_write::write(
        order,
        &keys[..n],
        &tags[..n],
        &mut copy[..size],
        constants,
        salt,
    );
    if written != size {
        return None;
    }
    if !image_equal::same_bytes(image, &copy[..size]) {
        return None;
    }
    Some(n)
}

// Recognize an image of up to `BYTES` bytes, which has at most `KEYS` keys. To clear room for the longest would take longer than the rest for
// one of medium length.
fn recognize_with<const KEYS: usize, const BYTES: usize>(
    image: &[u8],
    keys: &mut [u64],
    tags: &mut [u64],
    constants: &Constants,
) -> Option<usize>
    requires keys_room { (length keys.old ≡ most_slots) × (length tags.old ≡ most_slots) × (length image.now ≤ BYTES) }
    requires room_for { RoomFor (length image.now) KEYS × (KEYS ≤ most_slots) × (BYTES ≤ most_bytes) }
    ensures value { result ≡ recognized image.now }
    ensures keys_after { is_image image.now ≡ true → keys.new ≡ overwrite keys.old 0 (keys_in (read_image image.now)) }
    ensures tags_after { is_image image.now ≡ true → tags.new ≡ overwrite tags.old 0 (tags_in (read_image image.now)) }
{
    let mut weights = [0u64; KEYS];
    let mut ranking = [0u16; KEYS];
    let mut spare = [0u16; KEYS];
    let mut copy = [0u8; BYTES];
    recognize_within(
        image,
        &mut weights,
        &mut ranking,
        &mut spare,
        &mut copy,
        keys,
        tags,
        constants,
    )
}

// Recognize an image: how many keys it shows, and None for any other bytes. Where it is one, its keys, rising, are then at the start of `keys`,
// and the tags of their measures at the start of `tags`; else what the two hold is left open. Internal to this library's crates: their lists
// have room for the most keys that an image has, and they lend the constants of the priorities.
pub fn recognize(
    image: &[u8],
    keys: &mut [u64],
    tags: &mut [u64],
    constants: &Constants,
) -> Option<usize>
    requires { (length keys.old ≡ most_slots) × (length tags.old ≡ most_slots) }
    ensures value { result ≡ recognized image.now }
    ensures keys_after { is_image image.now ≡ true → keys.new ≡ overwrite keys.old 0 (keys_in (read_image image.now)) }
    ensures tags_after { is_image image.now ≡ true → tags.new ≡ overwrite tags.old 0 (tags_in (read_image image.now)) }
{
    if MOST_BYTES < image.len() {
        return None;
    }
    if image.len() <= MEDIUM_BYTES {
        return recognize_with::<MEDIUM_KEYS, MEDIUM_BYTES>(image, keys, tags, constants);
    }
    recognize_with::<MOST_KEYS, MOST_BYTES>(image, keys, tags, constants)
}
