// The priority and the home of a key, as document 01 defines them in "Priority" and "The table's words", under a salt (document 02, N9).
// Assumes nothing.
#![tactic(auto)]

ghost use Rattle.std.specs.Prelude.{◌≡◌, ◌<◌, ◌≤◌, length};
ghost use Rattle.priority.specs.Priority.{HoldsConstants, HoldsConstants-prop, priority_of, priority_with, priorities_over, home_of};

mod values;

pub use values::CONSTANT_COUNT;
use values::VALUES;

const KEY_BYTES: u64 = 8;

const BYTE_VALUES: u64 = 256;

const HOME_DIVISOR: u64 = 65536;

// The constants. Making them stores all of them, so a call of the library makes them once and lends them.
#[derive(Drop)]
pub struct Constants {
    pub values: [u64; CONSTANT_COUNT],
    ghost right: { HoldsConstants values } by { HoldsConstants-prop values },
}

impl Constants {
    pub fn new() -> Constants {
        Constants { values: VALUES }
    }

    // P of a number: the exclusive or of one constant for each of its bytes, the lowest first.
    fn mix(&self, number: u64) -> u64
        ensures { result ≡ priority_of number }
    {
        let mut joined = 0;
        let mut rest = number;
        for position in 0..KEY_BYTES {
            let index = (BYTE_VALUES * position + rest % BYTE_VALUES) as usize;
            joined ^= self.values[index];
            rest /= BYTE_VALUES;
        }
        joined
    }

    // The priority of `key` under a salt.
    pub fn priority(&self, key: u64, salt: u64) -> u64
        ensures { result ≡ priority_with salt key }
    {
        self.mix(key ^ salt)
    }

    // Write the priorities of `keys` under a salt, in their order, at the start of `output`.
    // Internal to this library's crates: their outputs have room for every key.
    pub fn priorities(&self, keys: &[u64], salt: u64, output: &mut [u64])
        requires { length keys.now ≤ length output.old }
        ensures { output.new ≡ priorities_over salt keys.now output.old }
    {
        // Stored by index: after a zip with `iter_mut` a proof knows nothing of the output.
        for (i, key) in keys.iter().enumerate() {
            output[i] = self.priority(*key, salt);
        }
    }
}

// The home, in a table of `slots` slots, of a key with this priority.
// Internal to this library's crates: their tables have at least one slot.
pub fn home(priority: u64, slots: u64) -> u64
    requires { 0 < slots }
    ensures { result ≡ home_of priority slots }
{
    priority / HOME_DIVISOR % slots
}
