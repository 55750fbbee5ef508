// The weights of the blocks that hold the keys, by which the image's order is sorted.
ghost use Rattle.std.specs.Prelude.{◌≡◌, ◌<◌, ◌≤◌, length, get_or};
ghost use Rattle.lists.specs.Lists.{overwrite};
ghost use Rattle.table.specs.Layout.{most_slots};
ghost use Rattle.image_blocks.specs.Naming.{level_at, leader_at, block_weight, block_weights, Ranked};

// The greatest position, and how many there are with 0, which means none.
const LAST: u64 = 4096;

const POSITIONS: u64 = 4097;

// The level of the block that holds the key at an index. Internal to this library's crates: their indices lie within the ranks.
pub fn level_at(root: usize, rank: &[u16], i: usize) -> u64
    requires { (i < length rank.now) × (get_or rank.now i 0 ≤ most_slots) }
    ensures { result ≡ level_at root rank.now i }
{
    if i + 1 == root {
        rank[i] as u64
    } else {
        rank[i] as u64 + 1
    }
}

// The position of the leader in that block's name. Internal to this library's crates: their indices lie within the leaders.
pub fn leader_at(root: usize, leader: &[u16], i: usize) -> usize
    requires { i < length leader.now }
    ensures { result ≡ leader_at root leader.now i }
{
    if i + 1 == root {
        root
    } else {
        leader[i] as usize
    }
}

// The weight of that block.
fn block_weight(n: usize, root: usize, rank: &[u16], leader: &[u16], i: usize) -> u64
    requires ranked { Ranked n root rank.now leader.now }
    requires i_lt_n { i < n }
    ensures { result ≡ block_weight root rank.now leader.now i }
{
    POSITIONS * level_at(root, rank, i) + (LAST - leader_at(root, leader, i) as u64)
}

// Write at the start of `weights` the weight of the block that holds each key. Internal to this library's crates: their ranks and leaders
// are those of a treap of so many keys.
pub fn weigh(n: usize, root: usize, rank: &[u16], leader: &[u16], weights: &mut [u64])
    requires ranked { Ranked n root rank.now leader.now }
    requires n_in_bounds { n ≤ length weights.old }
    ensures { weights.new ≡ overwrite weights.old 0 (block_weights root rank.now leader.now n) }
{
    for i in 0..n {
        weights[i] = block_weight(n, root, rank, leader, i);
    }
}
