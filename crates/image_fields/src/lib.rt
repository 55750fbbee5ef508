// Numbers in bytes, the lowest byte first: the fields of an image.
#![tactic(auto)]

ghost use Rattle.std.specs.Prelude.{◌≡◌, ◌+◌, ◌≤◌, length};
ghost use Rattle.lists.specs.Lists.{overwrite};
ghost use Rattle.treap.specs.Image.{little_endian};
ghost use Rattle.image.specs.Image.{field_at};

// How many values a byte has.
const BYTE: u64 = 256;

// Write the low `width` bytes of a number, from byte `at` on. Internal to this library's crates.
pub fn put(output: &mut [u8], at: usize, width: usize, number: u64)
    requires { at + width ≤ length output.old }
    ensures { output.new ≡ overwrite output.old at (little_endian width number) }
{
    let mut rest = number;
    for i in 0..width {
        output[at + i] = (rest % BYTE) as u8;
        rest /= BYTE;
    }
}

// The number in the `width` bytes from byte `at` on. Internal to this library's crates.
pub fn get(bytes: &[u8], at: usize, width: usize) -> u64
    requires { (at + width ≤ length bytes.now) × (width ≤ 8) }
    ensures { result ≡ field_at at width bytes.now }
{
    let mut number = 0;
    for byte in bytes[at..at + width].iter().rev() {
        number = number * BYTE + *byte as u64;
    }
    number
}
