// Writing a table from its order, its salt, its keys and the tags of their measures.
#![tactic(auto)]

ghost use Rattle.std.specs.Prelude.{◌≡◌, ◌<◌, ◌≤◌, length};
ghost use Rattle.table.specs.Layout.{most_slots, table_words};
ghost use Rattle.table.specs.Table.{fresh};
ghost use Rattle.table.specs.Tags.{tagged, Beside};
ghost use Rattle.table_prepare.specs.Prepared.{Keys};

use priority::Constants;
use table_prepare::Room;

// Write the table of the order, the salt and the keys with the measures beside them over whatever it held. Internal to this library's crates: they
// lend the constants of the priorities.
pub fn write(
    order: u64,
    keys: &[u64],
    tags: &[u64],
    many: usize,
    table: &mut [u64],
    constants: &Constants,
    salt: u64,
)
    requires keys { Keys order keys.now × Beside keys.now tags.now }
    requires many_in_range { (0 < many) × (length keys.now ≤ many) × (length table.old ≡ table_words many) × (many ≤ most_slots) }
    ensures { table.new ≡ fresh many (tagged order salt keys.now tags.now) }
{
    let mut room = Room::new();
    let root = room.prepare(order, keys, many, constants, salt);
    table_encode::emit(
        order,
        keys,
        tags,
        root,
        room.columns.lent(),
        &room.slots[..many],
        table,
        salt,
    );
}
