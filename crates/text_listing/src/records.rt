// The lines of an image's records, one after the other.
ghost use Rattle.std.specs.Prelude.{◌≡◌, ◌++◌, ◌+◌, ◌≤◌, length};
ghost use Rattle.std.specs.Iterator.{at_most};
ghost use Rattle.image.specs.Layout.{header_bytes, block_bytes, node_bytes};
ghost use Rattle.text_listing.specs.Shown.{shown, HasRecords};
ghost use Rattle.text_listing.specs.Lines.{text_of, header_in, block_in, key_in, lines_left, AreThere, NextLine};

use crate::fill_of;
use crate::line::Line;
use image::{
    BLOCK_BYTES, BLOCKS_AT, COUNT_AT, COUNT_BYTES, HELD_AT, KEY_AT, KEY_BYTES, LEADER_AT, LEVEL_AT,
    ORDER_AT, ORDER_BYTES, RANK_AT, ROOT_AT, SIZE_AT,
};

// The line of the header.
pub fn header_line(image: &[u8]) -> Line
    requires { HasRecords image.now }
    ensures { result ≡ header_in image.now }
{
    let order = image_fields::get(image, ORDER_AT, ORDER_BYTES);
    let keys = image_fields::get(image, SIZE_AT, COUNT_BYTES);
    let blocks = image_fields::get(image, BLOCKS_AT, COUNT_BYTES);
    let root = image_fields::get(image, ROOT_AT, KEY_BYTES);
    let fill = fill_of(order, keys, blocks);
    Line::Header {
        order,
        keys,
        blocks,
        fill,
        root,
    }
}

// The line of a block's record.
#[inline(always)]
fn block_line(block: &[u8]) -> Line
    requires { block_bytes ≤ length block.now }
    ensures { result ≡ block_in block.now }
{
    let leader = image_fields::get(block, LEADER_AT, KEY_BYTES);
    let level = image_fields::get(block, LEVEL_AT, COUNT_BYTES);
    let keys = image_fields::get(block, HELD_AT, COUNT_BYTES);
    Line::Block {
        leader,
        level,
        keys,
    }
}

// The line of a node record.
#[inline(always)]
fn key_line(node: &[u8]) -> Line
    requires { node_bytes ≤ length node.now }
    ensures { result ≡ key_in node.now }
{
    let key = image_fields::get(node, KEY_AT, KEY_BYTES);
    let rank = image_fields::get(node, RANK_AT, COUNT_BYTES);
    let count = image_fields::get(node, COUNT_AT, COUNT_BYTES);
    Line::Key { key, rank, count }
}

// Records of which the lines are still to come: those of so many keys, then those of so many blocks with their keys.
#[derive(Clone, Copy)]
pub struct Records<'a> {
    bytes: &'a [u8],
    keys: u64,
    blocks: u64,
}

impl<'a> Records<'a> {
    // All of an image, after its header.
    pub fn new(image: &'a [u8]) -> Records<'a>
        requires { HasRecords image.now }
        ensures shows { shown image.now ≡ text_of (header_in image.now) ++ lines_left result }
        ensures there { AreThere result }
        ensures passes { header_bytes + length result.bytes.now ≤ length image.now }
    {
        let start = image_collect::header_span(image);
        Records {
            bytes: &image[start..],
            keys: 0,
            blocks: image_fields::get(image, BLOCKS_AT, COUNT_BYTES),
        }
    }
}

impl<'a> Iterator for Records<'a> {
    type Item = Line;

    ghost can_next = { AreThere };

    ghost next_gives = { NextLine };

    ghost remaining = { λ left. at_most (length left.bytes.now) };

    // Put in line with `length` and `put`, whose match then goes by the kind that is known here.
    #[inline(always)]
    fn next(&mut self) -> Option<Line> {
        let bytes = self.bytes;
        if 0 < self.keys {
            self.keys -= 1;
            self.bytes = &bytes[image_collect::node_span(bytes)..];
            return Some(key_line(bytes));
        }
        if 0 < self.blocks {
            let held = image_fields::get(bytes, HELD_AT, COUNT_BYTES);
            self.blocks -= 1;
            self.keys = held;
            self.bytes = &bytes[BLOCK_BYTES..];
            return Some(block_line(bytes));
        }
        None
    }
}
