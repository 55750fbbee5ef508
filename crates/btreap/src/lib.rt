// The calls of the index as functions that a C or a Rust program links. Each takes any words, numbers and bytes, keeps no state, and
// changes none of the lent memory where it refuses.
#![tactic(auto)]

ghost use Rattle.std.specs.Prelude.{◌≡◌, true};
ghost use Rattle.measure.specs.Measure.{lies_z};
ghost use Rattle.paris_points.specs.Points.{least_rest, greatest_rest};
ghost use Rattle.call_batch.specs.Batch.{batch_reply, batch_after};
ghost use Rattle.call_step.specs.Steps.{step_reply, step_place};
ghost use Rattle.call_meaning.specs.Calls.{set_up_reply, set_up_after, load_reply, load_after, build_reply, build_after, insert_reply, insert_after, delete_reply, delete_after, lookup_reply, lookup_correction, range_reply, range_output, write_reply, write_output, read_reply, read_after};
ghost use Rattle.call_list.specs.Listed.{list_reply, list_output};
ghost use Rattle.call_pages.specs.Paged.{pages_reply, pages_output};
ghost use Rattle.call_points.specs.Pointed.{points_reply, points_rest};
ghost use Rattle.btreap_structs.specs.Structs.{ranked, found, sized, stepped, place_given, mark_after, pointed};

use btreap_structs::{FoundReply, PointedReply, RankedReply, SizedReply, SteppedReply};
use index::Question;

// Make of any words of a right length the blank table of an order and a salt, which is any number. Refusals: 1, 2.
#[unsafe(no_mangle)]
pub extern "C" fn btreap_set_up(table: &mut [u64], order: u64, salt: u64) -> u64
    ensures value { result ≡ (set_up_reply table.old order).refusal }
    ensures table_after { table.new ≡ set_up_after table.old order salt }
{
    let answer = index::set_up(table, order, salt);
    btreap_structs::done(answer)
}

// Make of any words of a right length the table of an order, a salt, which is any number, and a strictly rising list of keys with their
// measures: the lengths and the corrections, one of each beside each key. Refusals: 1, 2, 5, 12, 10.
#[unsafe(no_mangle)]
pub extern "C" fn btreap_build(
    table: &mut [u64],
    order: u64,
    salt: u64,
    keys: &[u64],
    lengths: &[u64],
    corrections: &[i32],
) -> u64
    ensures value { result ≡ (build_reply table.old order keys.now lengths.now corrections.now).refusal }
    ensures table_after { table.new ≡ build_after table.old order salt keys.now lengths.now corrections.now }
{
    let answer = index::build(table, order, salt, keys, lengths, corrections);
    btreap_structs::done(answer)
}

// Make of any words of a right length the table of an order, of salt zero and of the keys that `count` operations after a seed leave. Refusals: 1, 2.
#[unsafe(no_mangle)]
pub extern "C" fn btreap_load(table: &mut [u64], order: u64, seed: u64, count: u16) -> u64
    ensures value { result ≡ (load_reply table.old order).refusal }
    ensures table_after { table.new ≡ load_after table.old order seed count }
{
    let answer = index::load(table, order, seed, count);
    btreap_structs::done(answer)
}

// Insert a key with its length and its correction, both zero when it is not measured; the rank that it then has.
// Refusals: 1, 3, 12, 7, 8, 10.
#[unsafe(no_mangle)]
pub extern "C" fn btreap_insert(
    table: &mut [u64],
    key: u64,
    length: u64,
    correction: i32,
) -> RankedReply
    ensures result_value { ranked result ≡ insert_reply table.old key (record { length = length; correction = correction }) }
    ensures table_after { table.new ≡ insert_after table.old key (record { length = length; correction = correction }) }
{
    let answer = index::insert(table, key, length, correction);
    RankedReply::from(answer)
}

// Delete a key; the rank that it had. Refusals: 1, 3, 7, 9.
#[unsafe(no_mangle)]
pub extern "C" fn btreap_delete(table: &mut [u64], key: u64) -> RankedReply
    ensures result_value { ranked result ≡ delete_reply table.old key }
    ensures table_after { table.new ≡ delete_after table.old key }
{
    let answer = index::delete(table, key);
    RankedReply::from(answer)
}

// Look a key up: whether it is held, where it stands, with its measure, and how many blocks hold the keys compared. Refusals: 1, 3, 7.
#[unsafe(no_mangle)]
pub extern "C" fn btreap_lookup(table: &[u64], key: u64) -> FoundReply
    ensures result_value { found result ≡ lookup_reply table.now key }
    ensures correction_value { result.correction ≡ lookup_correction table.now key }
{
    let answer = index::look_up(table, key);
    FoundReply::from(answer)
}

// Look the strictly rising keys of a batch up, and fill in at each whether it is held, and its rank; how many different blocks hold the
// keys compared. Refusals: 1, 5, 7.
#[unsafe(no_mangle)]
pub extern "C" fn btreap_lookup_batch(table: &[u64], questions: &mut [Question]) -> SizedReply
    ensures result_value { sized result ≡ batch_reply table.now questions.old }
    ensures questions_after { questions.new ≡ batch_after table.now questions.old }
{
    let answer = index::look_up_batch(table, questions);
    SizedReply::from(answer)
}

// Write at the start of `output` the keys that the table holds from `low` to `high`, both included, rising. Refusals: 1, 4, 7, 11.
#[unsafe(no_mangle)]
pub extern "C" fn btreap_range(table: &[u64], low: u64, high: u64, output: &mut [u64]) -> SizedReply
    ensures result_value { sized result ≡ range_reply table.now low high output.old }
    ensures output_after { output.new ≡ range_output table.now low high output.old }
{
    let answer = index::range(table, low, high, output);
    SizedReply::from(answer)
}

// The least key that the table holds from `next` to `high`, and the place after it; the place is done where `done` is not zero.
// Refusals: 1, 7.
#[unsafe(no_mangle)]
pub extern "C" fn btreap_step(table: &[u64], next: u64, high: u64, done: u64) -> SteppedReply
    ensures result_value { stepped result ≡ step_reply table.now (place_given next high done) }
    ensures next_value { result.next ≡ (step_place table.now (place_given next high done)).next }
    ensures high_value { result.high ≡ (step_place table.now (place_given next high done)).high }
    ensures done_value { result.done ≡ mark_after done (step_place table.now (place_given next high done)).done }
{
    let moved = index::step_at(table, next, high, done != 0);
    let place = moved.place;
    let mark = btreap_structs::mark_after(done, place.done);
    btreap_structs::stepped(moved.answer, place.next, place.high, mark)
}

// Write the table's image at the start of `output`; how many bytes it has. Refusals: 1, 7, 11.
#[unsafe(no_mangle)]
pub extern "C" fn btreap_write(table: &[u64], output: &mut [u8]) -> SizedReply
    ensures result_value { sized result ≡ write_reply table.now output.old }
    ensures output_after { output.new ≡ write_output table.now output.old }
{
    let answer = index::write(table, output);
    SizedReply::from(answer)
}

// Make of any words of a right length the table whose image the bytes are. Refusals: 1, 6, 10.
#[unsafe(no_mangle)]
pub extern "C" fn btreap_read(table: &mut [u64], image: &[u8]) -> u64
    ensures value { result ≡ (read_reply table.old image.now).refusal }
    ensures table_after { table.new ≡ read_after table.old image.now }
{
    let answer = index::read(table, image);
    btreap_structs::done(answer)
}

// Write the text of an image at the start of `output`; how many bytes it has. Refusals: 6, 11.
#[unsafe(no_mangle)]
pub extern "C" fn btreap_list(image: &[u8], output: &mut [u8]) -> SizedReply
    ensures result_value { sized result ≡ list_reply image.now output.old }
    ensures output_after { output.new ≡ list_output image.now output.old }
{
    let answer = index::list(image, output);
    SizedReply::from(answer)
}

// Write the table's printed pages at the start of `output`; how many bytes they have. Refusals: 1, 7, 11.
#[unsafe(no_mangle)]
pub extern "C" fn btreap_pages(table: &[u64], output: &mut [u8]) -> SizedReply
    ensures result_value { sized result ≡ pages_reply table.now output.old }
    ensures output_after { output.new ≡ pages_output table.now output.old }
{
    let answer = index::pages(table, output);
    SizedReply::from(answer)
}

// The size of a length and a correction in half points, and the signed rest, from -500 to 499 thousandths of one; zeros for length 0 and
// correction 0, which is not measured. No table is lent. Refusal: 12.
#[unsafe(no_mangle)]
pub extern "C" fn btreap_points(length: u64, correction: i32) -> PointedReply
    ensures result_value { pointed result ≡ points_reply (record { length = length; correction = correction }) }
    ensures rest_value { result.rest ≡ points_rest (record { length = length; correction = correction }) }
    ensures rest_value_2 { lies_z least_rest greatest_rest result.rest ≡ true }
{
    let answer = index::points(length, correction);
    PointedReply::from(answer)
}
