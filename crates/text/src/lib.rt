// Writing text into a lent output at an index: bytes, spaces, and numbers in base ten, alone or in a column, or as sixteen hexadecimal digits. Each function
// answers the index after what it wrote. Internal to this library's crates: their outputs have room for it.
#![tactic(auto)]

ghost use Rattle.std.specs.Prelude.{◌≡◌, ◌+◌, ◌<◌, ◌≤◌, length};
ghost use Rattle.text.specs.Digits.{digit, digits, decimal, hexadecimal};
ghost use Rattle.text.specs.Columns.{spaces, right_aligned};
ghost use Rattle.text.specs.Written.{Written};

// How many digits a key has.
pub const HEXADECIMAL_DIGITS: usize = 16;

const SPACE: u8 = 32;

// The character of a digit below sixteen, letters capital.
fn digit(d: u64) -> u8
    requires { d < 16 }
    ensures { result ≡ digit d }
{
    if d < 10 { 48 + d as u8 } else { 55 + d as u8 }
}

// Write the last `many` digits of a number in a base, the highest first. Internal.
pub fn put_digits(output: &mut [u8], at: usize, base: u64, many: usize, n: u64) -> usize
    requires { (0 < base) × (base ≤ 16) × (at + many ≤ length output.old) }
    ensures { Written output.old at (digits base many n) output.new result }
{
    let end = at + many;
    let mut rest = n;
    for i in (at..end).rev() {
        output[i] = digit(rest % base);
        rest /= base;
    }
    end
}

// How many digits a number has in base ten, without leading zeros: at most twenty.
pub fn decimal_length(n: u64) -> usize
    ensures value { result ≡ length (decimal n) }
    ensures upper_bound { result ≤ 20 }
{
    n.checked_ilog10().unwrap_or(0) as usize + 1
}

// Write a number in base ten, without leading zeros. Internal.
pub fn put_decimal(output: &mut [u8], at: usize, n: u64) -> usize
    requires { at + length (decimal n) ≤ length output.old }
    ensures { Written output.old at (decimal n) output.new result }
{
    put_digits(output, at, 10, decimal_length(n), n)
}

// Write a number in base ten, right-aligned with spaces in so many characters. Internal.
pub fn put_aligned(output: &mut [u8], at: usize, width: usize, n: u64) -> usize
    requires { (length (decimal n) ≤ width) × (at + width ≤ length output.old) }
    ensures { Written output.old at (right_aligned width (decimal n)) output.new result }
{
    let start = put_spaces(output, at, width - decimal_length(n));
    put_decimal(output, start, n)
}

// Write a number as sixteen hexadecimal digits, letters capital. Internal.
pub fn put_hexadecimal(output: &mut [u8], at: usize, n: u64) -> usize
    requires { at + length (hexadecimal n) ≤ length output.old }
    ensures { Written output.old at (hexadecimal n) output.new result }
{
    put_digits(output, at, 16, HEXADECIMAL_DIGITS, n)
}

// Write so many spaces. Internal.
pub fn put_spaces(output: &mut [u8], at: usize, many: usize) -> usize
    requires { at + many ≤ length output.old }
    ensures { Written output.old at (spaces many) output.new result }
{
    let end = at + many;
    output[at..end].fill(SPACE);
    end
}

// Write bytes as they are. Internal.
pub fn put_bytes(output: &mut [u8], at: usize, text: &[u8]) -> usize
    requires { at + length text.now ≤ length output.old }
    ensures { Written output.old at text.now output.new result }
{
    let end = at + text.len();
    output[at..end].copy_from_slice(text);
    end
}
