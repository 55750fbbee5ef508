// Deciding whether a table is sound.
#![tactic(auto)]

ghost use Rattle.std.specs.Prelude.{◌≡◌, ◌<◌, ◌≤◌, length};
ghost use Rattle.table.specs.Layout.{most_slots, table_words};
ghost use Rattle.table_examine.specs.Examine.{verdict_of};
ghost use Rattle.table_judge.specs.Judge.{is_sound};

use priority::Constants;

// The verdict on a table of that many slots: how many keys it has, where it is sound.
fn decide(table: &[u64], many: usize, constants: &Constants) -> Option<usize>
    requires { (0 < many) × (many ≤ most_slots) × (length table.now ≡ table_words many) }
    ensures { result ≡ verdict_of many table.now }
{
    let mut keys = [0u64; 4096];
    let mut tags = [0u64; 4096];
    table_examine::examine(table, many, &mut keys, &mut tags, constants)
}

// Whether a table is sound, whatever its words and their number.
// Internal to this library's crates: they lend the constants of the priorities.
pub fn judge(table: &[u64], constants: &Constants) -> bool
    ensures { result ≡ is_sound table.now }
{
    let Some(many) = table_limits::slots_for(table.len()) else {
        return false;
    };
    decide(table, many, constants).is_some()
}
