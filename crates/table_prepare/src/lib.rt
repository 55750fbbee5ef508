// What a table is written from, out of its order, salt and keys: priorities, columns and slots.
#![tactic(auto)]

ghost use Rattle.std.specs.Prelude.{◌≡◌, map, ◌<◌, ◌≤◌, length, take};
ghost use Rattle.priority.specs.Priority.{priority_with, home_of};
ghost use Rattle.sorting.specs.ByWeight.{by_weight};
ghost use Rattle.treap.specs.Treap.{top};
ghost use Rattle.treap.specs.Slots.{slots_of};
ghost use Rattle.table.specs.Layout.{most_slots, greatest_order};
ghost use Rattle.treap_columns.specs.Positions.{positions, weight_at, InOrder};
ghost use Rattle.table_prepare.specs.Blank.{blank_room};
ghost use Rattle.table_prepare.specs.Prepared.{Filled, Keys, Prepared};

use priority::Constants;
use treap_columns::{Columns, MOST_POSITIONS};

// The room that a table or an image is prepared in: for each key its priority or another weight, the indices of the keys by falling weight, the
// columns, and for each slot the position that it has. Internal to this library's crates.
#[derive(Drop)]
pub struct Room {
    pub weights: [u64; MOST_POSITIONS],
    pub ranking: [u16; MOST_POSITIONS],
    pub columns: Columns,
    pub slots: [u16; MOST_POSITIONS],
}

impl Room {
    // Room in which nothing is prepared yet: zeros.
    pub fn new() -> Room
        ensures { result ≡ blank_room }
    {
        Room {
            weights: [0; MOST_POSITIONS],
            ranking: [0; MOST_POSITIONS],
            columns: Columns::new(),
            slots: [0; MOST_POSITIONS],
        }
    }

    // Make of the keys all that a table of `many` slots and a salt is written from, as `prepare` does, in this room; the position of the root.
    pub fn prepare(
        &mut self,
        order: u64,
        keys: &[u64],
        many: usize,
        constants: &Constants,
        salt: u64,
    ) -> usize
        requires keys { Keys order keys.now }
        requires many_in_range { (0 < many) × (many ≤ most_slots) × (length keys.now ≤ many) }
        ensures prepared { Prepared order salt keys.now self.new.columns (take many self.new.slots) result }
        ensures slots_len { length (take many self.new.slots) ≡ many }
    {
        prepare(
            order,
            keys,
            many,
            &mut self.weights,
            &mut self.ranking,
            &mut self.columns.left,
            &mut self.columns.right,
            &mut self.columns.rank,
            &mut self.columns.count,
            &mut self.columns.leader,
            &mut self.slots,
            constants,
            salt,
        )
    }
}

// Write at the start of `weights` the priorities of the keys under a salt, and at the start of `ranking` their positions, less one, by
// falling priority. What `spare` then holds, and the other two lists past as many words as there are keys, is left open. Internal to
// this library's crates: they lend the constants of the priorities.
pub fn prioritize(
    keys: &[u64],
    weights: &mut [u64],
    ranking: &mut [u16],
    spare: &mut [u16],
    constants: &Constants,
    salt: u64,
)
    requires { (length keys.now ≤ length weights.old) × (length keys.now ≤ length ranking.old) × (length keys.now ≤ length spare.old) × (length keys.now ≤ most_slots) }
    ensures weights_after { take (length keys.now) weights.new ≡ map (priority_with salt) keys.now }
    ensures ranking_after { take (length keys.now) ranking.new ≡ by_weight (map (priority_with salt) keys.now) }
{
    constants.priorities(keys, salt, weights);
    sorting::by_weight(weights, keys.len(), ranking, spare);
}

// Fill the columns of the positions of `weights`; the position of the root. What the columns hold past as many words as there are
// positions is left open. Each column is lent by itself, since it may have any length that is enough. Internal to this library's crates.
pub fn fill(
    weights: &[u64],
    order: u64,
    ranking: &[u16],
    left: &mut [u16],
    right: &mut [u16],
    rank: &mut [u16],
    count: &mut [u16],
    leader: &mut [u16],
) -> usize
    requires order_in_range { (2 ≤ order) × (order ≤ greatest_order) × (length weights.now ≤ most_slots) }
    requires in_order { (length weights.now ≤ length ranking.now) × InOrder weights.now (take (length weights.now) ranking.now) }
    requires link_room { (length weights.now ≤ length left.old) × (length weights.now ≤ length right.old) }
    requires standing_room { (length weights.now ≤ length rank.old) × (length weights.now ≤ length count.old) × (length weights.now ≤ length leader.old) }
    ensures value { result ≡ top (weight_at weights.now) (positions (length weights.now)) }
    ensures filled { Filled order weights.now (record { left = left.new; right = right.new; leader = leader.new; rank = rank.new; count = count.new }) }
{
    let n = weights.len();
    let root = treap_links::links(weights, left, right);
    treap_ranks::ranks(weights, order, n, ranking, left, right, rank, count);
    treap_leaders::leaders(weights, order, n, ranking, left, right, rank, leader);
    root
}

// Place the positions of `weights` in the first `many` of `slots`. What `skip` then holds, and `slots` past `many`, is left open.
fn place(weights: &[u64], ranking: &[u16], many: usize, slots: &mut [u16], skip: &mut [u16])
    requires in_order { InOrder weights.now ranking.now }
    requires many_in_range { (0 < many) × (length weights.now ≤ many) × (many ≤ most_slots) × (many ≤ length slots.old) × (many ≤ length skip.old) }
    ensures { take many slots.new ≡ slots_of (weight_at weights.now) (λ i. home_of (weight_at weights.now i) many) many (positions (length weights.now)) }
{
    table_slots::place(weights, ranking, &mut slots[..many], skip);
}

// Make of the keys all that a table of `many` slots and a salt is written from; the position of the root. What `weights` and `ranking` then hold, the
// columns past as many words as there are keys, and `slots` past `many`, is left open. Each list is lent by itself, since it may have any length
// that is enough. Internal to this library's crates: they lend the constants of the priorities.
pub fn prepare(
    order: u64,
    keys: &[u64],
    many: usize,
    weights: &mut [u64],
    ranking: &mut [u16],
    left: &mut [u16],
    right: &mut [u16],
    rank: &mut [u16],
    count: &mut [u16],
    leader: &mut [u16],
    slots: &mut [u16],
    constants: &Constants,
    salt: u64,
) -> usize
    requires keys { Keys order keys.now }
    requires many_in_range { (0 < many) × (many ≤ most_slots) × (length keys.now ≤ many) }
    requires link_room { (many ≤ length weights.old) × (many ≤ length ranking.old) × (many ≤ length left.old) × (many ≤ length right.old) }
    requires standing_room { (many ≤ length rank.old) × (many ≤ length count.old) × (many ≤ length leader.old) × (many ≤ length slots.old) }
    ensures prepared { Prepared order salt keys.now (record { left = left.new; right = right.new; leader = leader.new; rank = rank.new; count = count.new }) (take many slots.new) result }
    ensures slots_len { length (take many slots.new) ≡ many }
{
    let n = keys.len();
    prioritize(keys, weights, ranking, left, constants, salt);
    place(&weights[..n], &ranking[..n], many, slots, right);
    fill(
        &weights[..n],
        order,
        ranking,
        left,
        right,
        rank,
        count,
        leader,
    )
}
