// Looking a key up in a table of any words.
#![tactic(auto)]

ghost use Rattle.std.specs.Prelude.{◌≡◌, ◌<◌, ◌≤◌, length};
ghost use Rattle.table_limits.specs.Lengths.{slots_for};
ghost use Rattle.call_replies.specs.Replies.{looked_up_of, correction_of};
ghost use Rattle.call_meaning.specs.Calls.{lookup_reply, lookup_correction};

use call_replies::Refusal;
use priority::Constants;
use table_descend::Looked;

// Look a key up, which is not zero, in a table of `many` slots, with the constants of the priorities made for it.
// Not put in line: a lookup that is refused before would clear the room of the constants too.
#[inline(never)]
fn look_up_in(table: &[u64], many: usize, key: u64) -> Result<Looked, Refusal>
    requires { (many ≡ slots_for (length table.now)) × (0 < many) × (1 ≤ key) }
    ensures reply_value { looked_up_of result ≡ lookup_reply table.now key }
    ensures correction_value { correction_of result ≡ lookup_correction table.now key }
{
    let constants = Constants::new();
    if !table_judge::judge(table, &constants) {
        return Err(Refusal::NotSound);
    }
    let looked = table_descend::look_up(table, many, key, &constants);
    // The arms answer alike; each is proved by itself, so that the edits of must-fail/ are wrong of held or of absent keys alone.
    match looked.standing {
        Some(_) => Ok(looked),
        None => Ok(Looked {
            standing: None,
            blocks: looked.blocks,
        }),
    }
}

// Look a key up: where it stands if it is held, with its measure, and how many blocks hold the keys compared. Refusals: 1, 3, 7.
pub fn look_up(table: &[u64], key: u64) -> Result<Looked, Refusal>
    ensures reply_value { looked_up_of result ≡ lookup_reply table.now key }
    ensures correction_value { correction_of result ≡ lookup_correction table.now key }
{
    let Some(many) = table_limits::slots_for(table.len()) else {
        return Err(Refusal::WrongLength);
    };
    if key == 0 {
        return Err(Refusal::ZeroKey);
    }
    look_up_in(table, many, key)
}
