// Changing lists in place: where a key stands among rising keys, and an element more or less at an index. The same two functions
// serve a list of keys and the list of tags beside it.
#![tactic(auto)]

ghost use Rattle.std.specs.Prelude.{true, ◌≡◌, ◌<◌, ◌≤◌, length, take};
ghost use Rattle.lists.specs.Lists.{Rising, member, overwrite};
ghost use Rattle.call_sets.specs.Indices.{index_of, put_at, remove_at};

// Where a key stands, or would stand, among the first `n`, which rise.
fn index_of(keys: &[u64], n: usize, key: u64) -> usize
    requires { (n ≤ length keys.now) × Rising (take n keys.now) }
    ensures { result ≡ index_of key (take n keys.now) }
{
    keys[..n].partition_point(|k| *k < key)
}

// Put a value in at an index among the first `n`; those from there on move up.
fn put_at(list: &mut [u64], n: usize, at: usize, value: u64)
    requires { (n < length list.old) × (at ≤ n) }
    ensures { list.new ≡ overwrite list.old 0 (put_at at value (take n list.old)) }
{
    list.copy_within(at..n, at + 1);
    list[at] = value;
}

// Take the value at an index out of the first `n`; those above it move down.
fn remove_at(list: &mut [u64], n: usize, at: usize)
    requires { (n ≤ length list.old) × (at < n) }
    ensures { list.new ≡ overwrite list.old 0 (remove_at at (take n list.old)) }
{
    list.copy_within(at + 1..n, at);
}

// Put a key into its place among the first `n` of `keys`, which rise, and its tag at the same index among the first `n` of `tags`. Internal to
// this library's crates: their lists have room for it.
pub fn put_in(keys: &mut [u64], tags: &mut [u64], n: usize, key: u64, tag: u64)
    requires { (n < length keys.old) × (n < length tags.old) × Rising (take n keys.old) }
    ensures keys_after { keys.new ≡ overwrite keys.old 0 (put_at (index_of key (take n keys.old)) key (take n keys.old)) }
    ensures tags_after { tags.new ≡ overwrite tags.old 0 (put_at (index_of key (take n keys.old)) tag (take n tags.old)) }
{
    let at = index_of(keys, n, key);
    put_at(keys, n, at, key);
    put_at(tags, n, at, tag);
}

// Take a key out of the first `n` of `keys`, which rise, and its tag out of the first `n` of `tags`. Internal to this library's crates: the key is
// among these.
pub fn take_out(keys: &mut [u64], tags: &mut [u64], n: usize, key: u64)
    requires { (n ≤ length keys.old) × (n ≤ length tags.old) × Rising (take n keys.old) × (member key (take n keys.old) ≡ true) }
    ensures keys_after { keys.new ≡ overwrite keys.old 0 (remove_at (index_of key (take n keys.old)) (take n keys.old)) }
    ensures tags_after { tags.new ≡ overwrite tags.old 0 (remove_at (index_of key (take n keys.old)) (take n tags.old)) }
{
    let at = index_of(keys, n, key);
    remove_at(keys, n, at);
    remove_at(tags, n, at);
}
