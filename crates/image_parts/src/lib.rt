// The parts of an image: the records of keys and of blocks, from the columns of the keys by index, and the whole of them.
#![tactic(auto)]

ghost use Rattle.std.specs.Prelude.{◌≡◌, ◌+◌, ◌<◌, ◌≤◌, length};
ghost use mathlib.Core.List.{flat_map};
ghost use Rattle.lists.specs.Lists.{All, keep, overwrite};
ghost use Rattle.treap_columns.specs.Lent.{lists_of};
ghost use Rattle.image_blocks.specs.Naming.{Ranked};
ghost use Rattle.image_parts.specs.Parts.{node_at, measured_at, block_at, blocks_at, Listed, image_at};
ghost use Rattle.image_parts.specs.Written.{written_to};

use image::{BLOCK_BYTES, MEASURE_BYTES, NODE_BYTES};
use treap_columns::LentColumns;

// How many of the keys at the indices in `sorted` are measured.
fn count_measured(tags: &[u64], sorted: &[u16]) -> usize
    requires { All (λ i. i < length tags.now) sorted.now }
    ensures { result ≡ length (keep (measured_at tags.now) sorted.now) }
{
    let mut many = 0;
    for i in sorted {
        if measure::length_in(tags[*i as usize]) != 0 {
            many += 1;
        }
    }
    many
}

// Write the record of the key at an index, from byte `at` on. The byte after it.
fn put_key(
    keys: &[u64],
    tags: &[u64],
    columns: LentColumns<'_>,
    i: usize,
    output: &mut [u8],
    at: usize,
) -> usize
    requires listed { Listed keys.now tags.now (lists_of columns) }
    requires index_and_room { (i < length keys.now) × (at + length (node_at keys.now tags.now (lists_of columns) i) ≤ length output.old) }
    ensures value { result ≡ at + length (node_at keys.now tags.now (lists_of columns.entry) i) }
    ensures output_after { output.new ≡ overwrite output.old at (node_at keys.now tags.now (lists_of columns.entry) i) }
{
    let l = table_encode::key_at(keys, columns.left[i] as usize);
    let r = table_encode::key_at(keys, columns.right[i] as usize);
    let long = measure::length_in(tags[i]);
    let stored = measure::stored_in(tags[i]);
    image_records::put_node(
        output,
        at,
        keys[i],
        l,
        r,
        columns.rank[i] as u64,
        columns.count[i] as u64,
        long,
        stored,
    )
}

// Write the records of the keys at the indices in `run`, from byte `at` on. The byte after them.
fn put_keys(
    keys: &[u64],
    tags: &[u64],
    columns: LentColumns<'_>,
    run: &[u16],
    output: &mut [u8],
    at: usize,
) -> usize
    requires listed { Listed keys.now tags.now (lists_of columns) }
    requires indices { All (λ i. i < length keys.now) run.now }
    requires output_room { at + length (flat_map (node_at keys.now tags.now (lists_of columns)) run.now) ≤ length output.old }
    ensures value { result ≡ at + length (flat_map (node_at keys.now tags.now (lists_of columns.entry)) run.now) }
    ensures output_after { output.new ≡ overwrite output.old at (flat_map (node_at keys.now tags.now (lists_of columns.entry)) run.now) }
{
    let mut next = at;
    for i in run {
        next = put_key(keys, tags, columns, *i as usize, output, next);
    }
    next
}

// Write the part of the block that holds the keys at the indices in `run`, from byte `at` on. The byte after it.
fn put_part(
    keys: &[u64],
    tags: &[u64],
    root: usize,
    columns: LentColumns<'_>,
    run: &[u16],
    output: &mut [u8],
    at: usize,
) -> usize
    requires listed { Listed keys.now tags.now (lists_of columns) }
    requires ranked { Ranked (length keys.now) root columns.rank.now columns.leader.now }
    requires indices { (0 < length run.now) × All (λ i. i < length keys.now) run.now }
    requires output_room { at + length (block_at keys.now tags.now root (lists_of columns) run.now) ≤ length output.old }
    ensures value { result ≡ at + length (block_at keys.now tags.now root (lists_of columns.entry) run.now) }
    ensures output_after { output.new ≡ overwrite output.old at (block_at keys.now tags.now root (lists_of columns.entry) run.now) }
{
    let first = run[0] as usize;
    let level = image_blocks::names::level_at(root, columns.rank, first);
    let leader = image_blocks::names::leader_at(root, columns.leader, first);
    let name = table_encode::key_at(keys, leader);
    image_records::put_block(output, at, name, level, run.len() as u64);
    put_keys(keys, tags, columns, run, output, at + BLOCK_BYTES)
}

// Write the parts of all blocks, from byte `from` on.
fn put_blocks(
    keys: &[u64],
    tags: &[u64],
    root: usize,
    columns: LentColumns<'_>,
    weights: &[u64],
    sorted: &[u16],
    output: &mut [u8],
    from: usize,
)
    requires listed { Listed keys.now tags.now (lists_of columns) }
    requires ranked { Ranked (length keys.now) root columns.rank.now columns.leader.now }
    requires indices { (length weights.now ≡ length keys.now) × All (λ i. i < length keys.now) sorted.now }
    requires output_room { from + length (blocks_at keys.now tags.now root (lists_of columns) weights.now sorted.now) ≤ length output.old }
    ensures { output.new ≡ overwrite output.old from (blocks_at keys.now tags.now root (lists_of columns.entry) weights.now sorted.now) }
{
    let mut low = 0;
    let mut at = from;
    while low < sorted.len() {
        let high = image_blocks::runs::run_end(weights, sorted, low);
        at = put_part(keys, tags, root, columns, &sorted[low..high], output, at);
        low = high;
    }
}

// Write the image to the start of `output` where it has room for it. The image's length, in either case. Internal to this library's
// crates.
pub fn emit(
    order: u64,
    keys: &[u64],
    tags: &[u64],
    root: usize,
    columns: LentColumns<'_>,
    weights: &[u64],
    sorted: &[u16],
    output: &mut [u8],
    salt: u64,
) -> usize
    requires listed { Listed keys.now tags.now (lists_of columns) }
    requires ranked { Ranked (length keys.now) root columns.rank.now columns.leader.now }
    requires indices { (length weights.now ≡ length keys.now) × (length sorted.now ≡ length keys.now) × All (λ i. i < length keys.now) sorted.now }
    ensures value { result ≡ length (image_at order salt keys.now tags.now root (lists_of columns.entry) weights.now sorted.now) }
    ensures output_after { output.new ≡ written_to output.old (image_at order salt keys.now tags.now root (lists_of columns.entry) weights.now sorted.now) }
{
    let head = image_records::head_bytes(salt);
    let blocks = image_blocks::runs::count_runs(weights, sorted);
    let measured = count_measured(tags, sorted);
    let size = head + BLOCK_BYTES * blocks + NODE_BYTES * keys.len() + MEASURE_BYTES * measured;
    if output.len() < size {
        return size;
    }
    let top = table_encode::key_at(keys, root);
    image_records::put_header(
        output,
        0,
        order,
        keys.len() as u64,
        blocks as u64,
        top,
        salt,
    );
    put_blocks(keys, tags, root, columns, weights, sorted, output, head);
    size
}
