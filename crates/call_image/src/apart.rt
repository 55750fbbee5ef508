// What a reading does, in two functions that are not put in line: so the room of the one and that of the other do not lie on the stack together.
ghost use Rattle.std.specs.Prelude.{true, ◌≡◌, ◌<◌, ◌≤◌, length};
ghost use Rattle.lists.specs.Lists.{overwrite};
ghost use Rattle.table.specs.Contents.{keys_in};
ghost use Rattle.table.specs.Layout.{most_slots, table_words};
ghost use Rattle.table.specs.Table.{fresh};
ghost use Rattle.table.specs.Tags.{tags_in, tagged, Beside};
ghost use Rattle.table_prepare.specs.Prepared.{Keys};
ghost use Rattle.image.specs.Image.{read_image, is_image};
ghost use Rattle.image_recognize.specs.Recognize.{recognized};

use priority::Constants;

// Recognize an image, as `image_recognize::recognize` does.
#[inline(never)]
pub fn recognize(
    image: &[u8],
    keys: &mut [u64],
    tags: &mut [u64],
    constants: &Constants,
) -> Option<usize>
    requires { (length keys.old ≡ most_slots) × (length tags.old ≡ most_slots) }
    ensures value { result ≡ recognized image.now }
    ensures keys_after { is_image image.now ≡ true → keys.new ≡ overwrite keys.old 0 (keys_in (read_image image.now)) }
    ensures tags_after { is_image image.now ≡ true → tags.new ≡ overwrite tags.old 0 (tags_in (read_image image.now)) }
{
    image_recognize::recognize(image, keys, tags, constants)
}

// Write a table, as `table_write::write` does.
#[inline(never)]
pub fn write(
    order: u64,
    keys: &[u64],
    tags: &[u64],
    many: usize,
    table: &mut [u64],
    constants: &Constants,
    salt: u64,
)
    requires keys { Keys order keys.now × Beside keys.now tags.now }
    requires many_in_range { (0 < many) × (length keys.now ≤ many) × (length table.old ≡ table_words many) × (many ≤ most_slots) }
    ensures { table.new ≡ fresh many (tagged order salt keys.now tags.now) }
{
    table_write::write(order, keys, tags, many, table, constants, salt);
}
