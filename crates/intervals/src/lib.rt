// The keys of a rising list that lie in a range.
#![tactic(auto)]

ghost use Rattle.std.specs.Prelude.{◌≡◌, ◌≤◌, length, take};
ghost use Rattle.lists.specs.Lists.{lies, overwrite};
ghost use Rattle.intervals.specs.Intervals.{within};

// Whether a number lies from `low` to `high`, both included. Internal to this library's crates.
pub fn is_within(number: u64, low: u64, high: u64) -> bool
    ensures { result ≡ lies low high number }
{
    (low..=high).contains(&number)
}

// How many of the first `n` keys lie from `low` to `high`; the callers hold the list whole. Internal to this library's crates.
pub fn count_within(keys: &[u64], n: usize, low: u64, high: u64) -> usize
    requires { n ≤ length keys.now }
    ensures { result ≡ length (within low high (take n keys.now)) }
{
    keys[..n]
        .iter()
        .filter(|key| is_within(**key, low, high))
        .count()
}

// Write those at the start of `output`, in their order. Internal to this library's crates.
pub fn copy_within(keys: &[u64], n: usize, low: u64, high: u64, output: &mut [u64])
    requires { (n ≤ length keys.now) × (length (within low high (take n keys.now)) ≤ length output.old) }
    ensures { output.new ≡ overwrite output.old 0 (within low high (take n keys.now)) }
{
    let mut at = 0;
    for key in &keys[..n] {
        if is_within(*key, low, high) {
            output[at] = *key;
            at += 1;
        }
    }
}
