// The treap's links over the positions of a list of weights.
#![tactic(auto)]

ghost use Rattle.std.specs.Prelude.{◌≡◌, suc, ◌<◌, ◌≤◌, length, drop};
ghost use Rattle.lists.specs.Lists.{overwrite};
ghost use Rattle.treap.specs.Treap.{top};
ghost use Rattle.treap_columns.specs.Positions.{positions, weight_at};
ghost use Rattle.treap_links.specs.Links.{between, left_links, right_links};
ghost use Rattle.treap_links.specs.Nearest.{NearestBefore, Nearest};
ghost use Rattle.treap_columns.specs.Columns.{left_column, right_column, most_positions};

// The nearest index before `i` that outranks it, as a position; 0 where there is none. Each index that it comes to on the way
// and outranks is told `i` as the nearest after; those between are passed over.
fn overtake(weights: &[u64], i: usize, left: &[u16], right: &mut [u16]) -> usize
    requires i_in_bounds { (i < length weights.now) × (i ≤ length left.now) × (length weights.now ≤ length right.old) × (length weights.now ≤ most_positions) }
    requires nearest { Nearest weights.now i 0 i left.now right.old }
    ensures nearest_before { NearestBefore weights.now i result }
    ensures nearest_with_i { Nearest weights.now (suc i) 0 i left.now right.new }
    ensures right_unchanged { drop (length weights.now) right.new ≡ drop (length weights.now) right.old }
{
    let mut b = i;
    while 0 < b && weights[b - 1] < weights[i] {
        right[b - 1] = i as u16;
        b = left[b - 1] as usize;
    }
    b
}

// Write for each index the nearest before it that outranks it, as a position or 0, into `left`, and the nearest after it,
// or the number of weights, into `right`.
fn nearest(weights: &[u64], left: &mut [u16], right: &mut [u16])
    requires { (length weights.now ≤ length left.old) × (length weights.now ≤ length right.old) × (length weights.now ≤ most_positions) }
    ensures nearest { Nearest weights.now (length weights.now) 0 (length weights.now) left.new right.new }
    ensures left_unchanged { drop (length weights.now) left.new ≡ drop (length weights.now) left.old }
    ensures right_unchanged { drop (length weights.now) right.new ≡ drop (length weights.now) right.old }
{
    let n = weights.len();
    for i in 0..n {
        let b = overtake(weights, i, left, right);
        left[i] = b as u16;
        right[i] = n as u16;
    }
}

// The position that outranks the rest of those from index `lo` up to `hi`; 0 where there is none. From both ends of the part
// it goes to what outranks them, until one end is outranked by nothing in the part, or the two meet. Only its contract names
// the weights.
fn root_of(weights: &[u64], lo: usize, hi: usize, left: &[u16], right: &[u16]) -> usize
    requires hi_in_bounds { (hi ≤ length weights.now) × (hi ≤ length left.now) × (hi ≤ length right.now) }
    requires nearest { Nearest weights.now (length weights.now) lo hi left.now right.now }
    ensures { result ≡ top (weight_at weights.now) (between lo hi) }
{
    if hi <= lo {
        return 0;
    }
    let mut a = lo;
    let mut b = hi;
    while a + 1 < b {
        let up = right[a] as usize;
        if hi <= up {
            return a + 1;
        }
        let down = left[b - 1] as usize;
        if down <= lo {
            return b;
        }
        a = up;
        b = down;
    }
    a + 1
}

// Write the links of the positions from index `lo` up to `hi`, whose root is `root`. It goes on with the longer of the
// two parts, and calls itself on the shorter.
fn grow(weights: &[u64], lo: usize, hi: usize, root: usize, left: &mut [u16], right: &mut [u16])
    requires lo_le_hi { (lo ≤ hi) × (hi ≤ length weights.now) × (hi ≤ most_positions) }
    requires hi_in_bounds { (hi ≤ length left.old) × (hi ≤ length right.old) }
    requires root_value { root ≡ top (weight_at weights.now) (between lo hi) }
    requires nearest { Nearest weights.now (length weights.now) lo hi left.old right.old }
    ensures left_after { left.new ≡ overwrite left.old lo (left_links weights.now lo hi) }
    ensures right_after { right.new ≡ overwrite right.old lo (right_links weights.now lo hi) }
{
    let mut a = lo;
    let mut b = hi;
    let mut at = root;
    while a < b {
        let i = at - 1;
        let l = root_of(weights, a, i, left, right);
        let r = root_of(weights, at, b, left, right);
        left[i] = l as u16;
        right[i] = r as u16;
        if i - a <= b - at {
            grow(weights, a, i, l, left, right);
            a = at;
            at = r;
        } else {
            grow(weights, at, b, r, left, right);
            b = i;
            at = l;
        }
    }
}

// Write at the start of `left` and `right` the links of each position, in the order of positions. The root.
// Internal to this library's crates.
pub fn links(weights: &[u64], left: &mut [u16], right: &mut [u16]) -> usize
    requires { (length weights.now ≤ length left.old) × (length weights.now ≤ length right.old) × (length weights.now ≤ most_positions) }
    ensures value { result ≡ top (weight_at weights.now) (positions (length weights.now)) }
    ensures left_after { left.new ≡ overwrite left.old 0 (left_column weights.now (length weights.now)) }
    ensures right_after { right.new ≡ overwrite right.old 0 (right_column weights.now (length weights.now)) }
{
    let n = weights.len();
    nearest(weights, left, right);
    let root = root_of(weights, 0, n, left, right);
    grow(weights, 0, n, root, left, right);
    root
}
