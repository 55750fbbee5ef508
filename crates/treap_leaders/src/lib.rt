// The column of leaders, each position's from that of its parent, the outranking positions first.
#![tactic(auto)]

ghost use Rattle.std.specs.Prelude.{◌≡◌, ◌++◌, ◌≤◌, ◌<◌, length, take, drop};
ghost use Rattle.treap_columns.specs.Columns.{rank_column, leader_column, most_positions, Ready};
ghost use Rattle.treap_leaders.specs.Steps.{handed_down};

// Write the leader of the position `child`: its parent, given by its index, if that has the higher rank, else the parent's leader.
fn hand_down(parent: usize, child: u16, rank: &[u16], leader: &mut [u16])
    requires parent_in_bounds { (parent < length rank.now) × (parent < length leader.old) × (parent < most_positions) }
    requires child_in_bounds { (child ≤ length rank.now) × (child ≤ length leader.old) }
    ensures { leader.new ≡ handed_down parent child rank.now leader.old }
{
    if child == 0 {
        return;
    }
    let index = (child - 1) as usize;
    if rank[parent] > rank[index] {
        leader[index] = parent as u16 + 1;
    } else {
        leader[index] = leader[parent];
    }
}

// Write at the start of `leader` the leader of each position, in the order of positions.
// `weights` is named by the contract alone, and `n` goes beside lists that the callers hold whole. Internal to this library's crates.
pub fn leaders(
    weights: &[u64],
    alpha: u64,
    n: usize,
    order: &[u16],
    left: &[u16],
    right: &[u16],
    rank: &[u16],
    leader: &mut [u16],
)
    requires ready { Ready weights.now alpha n order.now left.now right.now }
    requires n_in_bounds { (n ≤ length rank.now) × (n ≤ length leader.old) }
    requires rank_value { take n rank.now ≡ rank_column alpha weights.now n }
    ensures { leader.new ≡ leader_column alpha weights.now n ++ drop n leader.old }
{
    if n == 0 {
        return;
    }
    let root = order[0] as usize;
    leader[root] = 0;
    for entry in &order[..n] {
        let parent = *entry as usize;
        hand_down(parent, left[parent], rank, leader);
        hand_down(parent, right[parent], rank, leader);
    }
}
