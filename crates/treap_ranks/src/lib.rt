// The columns of ranks and counts, each position's from those of its children, the outranked positions first.
#![tactic(auto)]

ghost use Rattle.std.specs.Prelude.{◌≡◌, ◌++◌, ◌≤◌, length, drop};
ghost use Rattle.treap_structure.proofs.Fold.{raise as raise_standing, count_at};
ghost use Rattle.treap_columns.specs.Columns.{rank_column, count_column, Ready};
ghost use Rattle.treap_ranks.specs.Steps.{entry_at, standing_of, Small, raise_root};

// The rank and the count of a position; zeros for none.
#[derive(Clone, Copy, Default)]
struct Standing {
    rank: u16,
    count: u16,
}

// The standing that the columns have for a position.
fn standing_at(position: u16, rank: &[u16], count: &[u16]) -> Standing
    requires { (position ≤ length rank.now) × (position ≤ length count.now) }
    ensures { (result.rank ≡ entry_at rank.now position) × (result.count ≡ entry_at count.now position) }
{
    if position == 0 {
        return Standing::default();
    }
    let index = (position - 1) as usize;
    Standing {
        rank: rank[index],
        count: count[index],
    }
}

// The count of a child if it has the given rank, else nothing.
fn count_at(rank: u16, child: Standing) -> u16
    ensures { result ≡ count_at rank (standing_of child) }
{
    if child.rank == rank { child.count } else { 0 }
}

// The standing of a position from those of its children: the fold.
fn raise(alpha: u64, left: Standing, right: Standing) -> Standing
    requires { Small (standing_of left) × Small (standing_of right) }
    ensures { standing_of result ≡ raise_standing alpha (standing_of left) (standing_of right) }
{
    let rank = left.rank.max(right.rank);
    let count = 1 + count_at(rank, left) + count_at(rank, right);
    if count as u64 >= alpha {
        Standing {
            rank: rank + 1,
            count: 1,
        }
    } else {
        Standing { rank, count }
    }
}

// The standing of the root of `n` positions from those of its children.
fn raise_root(n: usize, left: Standing, right: Standing) -> Standing
    requires { Small (standing_of left) × Small (standing_of right) }
    ensures { standing_of result ≡ raise_root n (standing_of left) (standing_of right) }
{
    if 1 < n {
        Standing {
            rank: left.rank.max(right.rank) + 1,
            count: 1,
        }
    } else {
        Standing { rank: 0, count: 1 }
    }
}

// Write at the start of `rank` and `count` the rank and count of each position, in the order of positions.
// `weights` is named by the contract alone, and `n` goes beside lists that the callers hold whole. Internal to this library's crates.
pub fn ranks(
    weights: &[u64],
    alpha: u64,
    n: usize,
    order: &[u16],
    left: &[u16],
    right: &[u16],
    rank: &mut [u16],
    count: &mut [u16],
)
    requires ready { Ready weights.now alpha n order.now left.now right.now }
    requires n_in_bounds { (n ≤ length rank.old) × (n ≤ length count.old) }
    ensures ranks { rank.new ≡ rank_column alpha weights.now n ++ drop n rank.old }
    ensures counts { count.new ≡ count_column alpha weights.now n ++ drop n count.old }
{
    for j in (0..n).rev() {
        let index = order[j] as usize;
        let below = standing_at(left[index], rank, count);
        let above = standing_at(right[index], rank, count);
        let raised = if j == 0 {
            raise_root(n, below, above)
        } else {
            raise(alpha, below, above)
        };
        rank[index] = raised.rank;
        count[index] = raised.count;
    }
}
