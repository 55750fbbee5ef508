// Placing positions in the slots of a table.
#![tactic(auto)]

ghost use Rattle.std.specs.Prelude.{◌≢◌, ◌≡◌, ◌<◌, ◌≤◌, length, replicate, set};
ghost use Rattle.treap.specs.Slots.{first_empty, slots_of};
ghost use Rattle.priority.specs.Priority.{home_of};
ghost use Rattle.treap_columns.specs.Positions.{positions, weight_at, InOrder};
ghost use Rattle.treap_columns.specs.Columns.{most_positions};
ghost use Rattle.table_slots.specs.Skips.{Skips};

// Empty every slot, and begin the skips: a free slot's is its own number.
fn begin(slots: &mut [u16], skip: &mut [u16])
    requires { (length slots.old ≤ most_positions) × (length slots.old ≤ length skip.old) }
    ensures slots_after { slots.new ≡ replicate (length slots.old) 0 }
    ensures skips { Skips slots.new skip.new }
{
    // Zero is an empty slot, as in the definition `slots_of`.
    slots.fill(0);
    // By number, as the number itself is what is written, and `skip` may be longer.
    for slot in 0..slots.len() {
        skip[slot] = slot as u16;
    }
}

// The first empty slot from `home` on, slot 0 following the last. Each skip on the way is made to go as far as the one
// it leads to goes.
fn first_empty(slots: &[u16], home: usize, skip: &mut [u16]) -> usize
    requires skips { Skips slots.now skip.old }
    requires home_in_bounds { (home < length slots.now) × (first_empty slots.now home < length slots.now) }
    ensures value { result ≡ first_empty slots.now home }
    ensures skips_after { Skips slots.now skip.new }
{
    let mut at = home;
    while slots[at] != 0 {
        let next = skip[at] as usize;
        skip[at] = skip[next];
        at = next;
    }
    at
}

// Put `position` in the first empty slot from `home` on. Its skip goes one slot on.
fn put(slots: &mut [u16], skip: &mut [u16], home: usize, position: u16)
    requires skips { Skips slots.old skip.old }
    requires home_in_bounds { (home < length slots.old) × (first_empty slots.old home < length slots.old) × (length slots.old ≤ most_positions) × (position ≢ 0) }
    ensures slots_after { slots.new ≡ set slots.old (first_empty slots.old home) position }
    ensures skips_after { Skips slots.new skip.new }
{
    let at = first_empty(slots, home, skip);
    let mut next = at + 1;
    if next == slots.len() {
        next = 0;
    }
    slots[at] = position;
    skip[at] = next as u16;
}

// Write the slots of the positions of `weights`: each position, in the order of `order`, in the first empty slot from its
// home on. What `skip` then holds is left open. Internal to this library's crates.
pub fn place(weights: &[u64], order: &[u16], slots: &mut [u16], skip: &mut [u16])
    requires in_order { InOrder weights.now order.now }
    requires slots_nonzero { (0 < length slots.old) × (length weights.now ≤ length slots.old) × (length slots.old ≤ most_positions) × (length slots.old ≤ length skip.old) }
    ensures { slots.new ≡ slots_of (weight_at weights.now) (λ i. home_of (weight_at weights.now i) (length slots.old)) (length slots.old) (positions (length weights.now)) }
{
    begin(slots, skip);
    let many = slots.len() as u64;
    for i in order {
        let home = priority::home(weights[*i as usize], many);
        put(slots, skip, home as usize, *i + 1);
    }
}
