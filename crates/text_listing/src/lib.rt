// The text that lists an image: one line for the header, each block and each key, written into a lent output.
#![tactic(auto)]

mod line;
mod records;

ghost use Rattle.std.specs.Prelude.{◌≡◌, true, min, ◌*◌, ◌≤◌, ◌<◌, length};
ghost use Rattle.treap.specs.Blocks.{fill};
ghost use Rattle.lists.specs.Lists.{overwrite};
ghost use Rattle.image.specs.Image.{is_image, read_image};
ghost use Rattle.text_listing.specs.Shown.{most_growth};
ghost use Rattle.text_listing.specs.Listing.{listing_of};

use records::{Records, header_line};

// How full blocks are, in percent of what they can hold, rounded down: so many keys in so many blocks of an order.
fn fill_of(order: u64, keys: u64, blocks: u64) -> u64
    requires { (1 ≤ order) × (order < 256) × (keys < 65536) × (blocks < 65536) × (min 1 keys ≤ blocks) }
    ensures { result ≡ fill order keys blocks }
{
    if keys == 0 {
        return 0;
    }
    100 * keys / (2 * order - 1 + (blocks - 1) * (2 * order - 2))
}

// Write the listing of an image from the start of the output on; later bytes stay. How long it is. Internal to this library's
// crates: the bytes are an image, and there is room for its listing.
pub fn write(image: &[u8], output: &mut [u8]) -> usize
    requires image_value { is_image image.now ≡ true }
    requires room { length (listing_of (read_image image.now)) ≤ length output.old }
    ensures value { result ≡ length (listing_of (read_image image.now)) }
    ensures output_after { output.new ≡ overwrite output.old 0 (listing_of (read_image image.now)) }
{
    let mut to = header_line(image).put(output, 0);
    for line in Records::new(image) {
        to = line.put(output, to);
    }
    to
}

// How long the listing of an image is: at most ten times the image. Internal to this library's crates: the bytes are an image.
pub fn size(image: &[u8]) -> usize
    requires { is_image image.now ≡ true }
    ensures value { result ≡ length (listing_of (read_image image.now)) }
    ensures upper_bound { result ≤ most_growth * length image.now }
{
    let mut total = header_line(image).length();
    for line in Records::new(image) {
        total += line.length();
    }
    total
}
