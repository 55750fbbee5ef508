// Writing the image of an order, a salt and keys with their measures.
#![tactic(auto)]

ghost use Rattle.std.specs.Prelude.{◌≡◌, length};
ghost use Rattle.table.specs.Tags.{tagged, Beside};
ghost use Rattle.table_prepare.specs.Prepared.{Keys};
ghost use Rattle.image.specs.Image.{image_of};
ghost use Rattle.image_parts.specs.Written.{written_to};
ghost use Rattle.image_write.specs.Arranged.{Arranged};

use priority::Constants;
use table_prepare::Room;

// Make of the keys all that an image is written from, in a room: the columns, in its weights those of the blocks that hold the keys, and in its
// ranking the indices of the keys in the image's order; the position of the root. What the room's slots then hold is left open.
fn arrange(order: u64, keys: &[u64], room: &mut Room, constants: &Constants, salt: u64) -> usize
    requires { Keys order keys.now }
    ensures { Arranged order salt keys.now room.new.weights room.new.ranking room.new.columns result }
{
    let n = keys.len();
    table_prepare::prioritize(
        keys,
        &mut room.weights,
        &mut room.ranking,
        &mut room.slots,
        constants,
        salt,
    );
    let columns = &mut room.columns;
    let root = table_prepare::fill(
        &room.weights[..n],
        order,
        &room.ranking,
        &mut columns.left,
        &mut columns.right,
        &mut columns.rank,
        &mut columns.count,
        &mut columns.leader,
    );
    image_blocks::names::weigh(n, root, &columns.rank, &columns.leader, &mut room.weights);
    sorting::by_weight(&room.weights, n, &mut room.ranking, &mut room.slots);
    root
}

// Write the image of the order, the salt and the keys with their tags to the start of `output` where it has room for it, and no byte where it has
// not. The image's length, in either case. Internal to this library's crates: they lend the constants of the priorities.
pub fn write(
    order: u64,
    keys: &[u64],
    tags: &[u64],
    output: &mut [u8],
    constants: &Constants,
    salt: u64,
) -> usize
    requires { Keys order keys.now × Beside keys.now tags.now }
    ensures value { result ≡ length (image_of (tagged order salt keys.now tags.now)) }
    ensures output_after { output.new ≡ written_to output.old (image_of (tagged order salt keys.now tags.now)) }
{
    let n = keys.len();
    let mut room = Room::new();
    let root = arrange(order, keys, &mut room, constants, salt);
    image_parts::emit(
        order,
        keys,
        tags,
        root,
        room.columns.lent(),
        &room.weights[..n],
        &room.ranking[..n],
        output,
        salt,
    )
}
