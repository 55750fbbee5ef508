// Comparing lists of bytes.
#![tactic(auto)]

ghost use Rattle.std.specs.Prelude.{◌≡◌};
ghost use Rattle.lists.specs.Lists.{same};

// Whether two lists of bytes are equal: all differences are gathered, and looked at once. Internal to this library's
// crates.
pub fn same_bytes(left: &[u8], right: &[u8]) -> bool
    ensures { result ≡ same left.now right.now }
{
    if left.len() != right.len() {
        return false;
    }
    // By number, and not `left == right`: of that no wrong program is refused by a fact.
    let mut gathered: u8 = 0;
    for i in 0..left.len() {
        gathered |= left[i] ^ right[i];
    }
    gathered == 0
}
