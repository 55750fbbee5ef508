// A load that anyone can run again: set-up, and then operations that follow from a seed.
#![tactic(auto)]

ghost use Rattle.std.specs.Prelude.{◌≡◌, true, [], ◌<◌, ◌≤◌, length};
ghost use Rattle.lists.specs.Lists.{All};
ghost use Rattle.table.specs.Layout.{most_slots, table_words};
ghost use Rattle.table.specs.Table.{contents_of, fresh};
ghost use Rattle.table.specs.Contents.{keys_in};
ghost use Rattle.table.specs.Sound.{sound_with};
ghost use Rattle.call_sets.specs.Load.{chosen, loaded};
ghost use Rattle.call_replies.specs.Replies.{done_of};
ghost use Rattle.call_meaning.specs.Calls.{load_reply, load_after};
ghost use Rattle.call_changes.specs.Known.{Known};
ghost use Rattle.call_changes.specs.Done.{IsLoadKey, with_done};
ghost use Rattle.call_load.specs.Choice.{operation_of, key_of};

use call_replies::Refusal;
use measure::UNMEASURED;
use priority::Constants;

// The keys are 1 to this.
const KEY_COUNT: usize = 512;

// The salt of a load's table.
const LOAD_SALT: u64 = 0;

// A state divided by 2^32 gives the key, divided by 2^62 the choice.
const KEY_DIVISOR: u64 = 4294967296;

const CHOICE_DIVISOR: u64 = 4611686018427387904;

// The choice of a delete; one below it is an insert, one above it a lookup.
const DELETE: u64 = 2;

// What an operation of a load does with its key.
#[derive(Clone, Copy)]
enum Operation {
    Insert(u64),
    Delete(u64),
    LookUp(u64),
}

impl Operation {
    // The operation that a state chooses.
    fn chosen(state: u64) -> Operation
        ensures value { operation_of result ≡ chosen state }
        ensures load_key { IsLoadKey (key_of result) }
    {
        let key = state / KEY_DIVISOR % KEY_COUNT as u64 + 1;
        let choice = state / CHOICE_DIVISOR;
        if choice < DELETE {
            return Operation::Insert(key);
        }
        if choice == DELETE {
            return Operation::Delete(key);
        }
        Operation::LookUp(key)
    }
}

// Do an operation of a load on a sound table of `many` slots with its keys at the start of `keys` and the tags of their measures at the start
// of `tags`. A refused one changes nothing; what it answers is not reported.
fn operate(
    table: &mut [u64],
    many: usize,
    operation: Operation,
    keys: &mut [u64],
    tags: &mut [u64],
    constants: &Constants,
)
    requires known { Known many table.old keys.old tags.old }
    requires chosen_key { IsLoadKey (key_of operation) }
    requires load_keys { All IsLoadKey (keys_in (contents_of many table.old)) × (512 ≤ length keys.old) × (512 ≤ length tags.old) }
    ensures known_after { Known many table.new keys.new tags.new }
    ensures table_after { contents_of many table.new ≡ with_done many (operation_of operation) (contents_of many table.old) }
{
    match operation {
        Operation::Insert(key) => {
            let _ = call_insert::insert_known(table, many, key, UNMEASURED, keys, tags, constants);
        }
        Operation::Delete(key) => {
            let _ = call_delete::delete_known(table, many, key, keys, tags, constants);
        }
        Operation::LookUp(key) => {
            table_descend::look_up(table, many, key, constants);
        }
    }
}

// Do `count` operations after a seed, on a blank table of `many` slots, with `keys` and `tags` to work in.
fn operate_all(
    table: &mut [u64],
    many: usize,
    seed: u64,
    count: u16,
    keys: &mut [u64],
    tags: &mut [u64],
    constants: &Constants,
)
    requires sized { (0 < many) × (many ≤ most_slots) × (length table.old ≡ table_words many) × (sound_with many table.old ≡ true) }
    requires blank { ((contents_of many table.old).entries ≡ []) × (512 ≤ length keys.old) × (512 ≤ length tags.old) }
    ensures { table.new ≡ fresh many (record { order = (contents_of many table.old).order; salt = (contents_of many table.old).salt; entries = loaded many seed count }) }
{
    let mut state = seed;
    for _ in 0..count {
        state = generator::next(state);
        operate(table, many, Operation::chosen(state), keys, tags, constants);
    }
}

// The same, with room for as many keys as a load has, and the constants made for all its operations.
fn operate_within(table: &mut [u64], many: usize, seed: u64, count: u16)
    requires sized { (0 < many) × (many ≤ most_slots) × (length table.old ≡ table_words many) × (sound_with many table.old ≡ true) }
    requires blank { (contents_of many table.old).entries ≡ [] }
    ensures { table.new ≡ fresh many (record { order = (contents_of many table.old).order; salt = (contents_of many table.old).salt; entries = loaded many seed count }) }
{
    let mut keys = [0u64; KEY_COUNT];
    let mut tags = [0u64; KEY_COUNT];
    let constants = Constants::new();
    operate_all(table, many, seed, count, &mut keys, &mut tags, &constants);
}

// Make of any words of a right length the table of an order, of salt zero and of the keys that `count` operations after a seed leave. Refusals: 1, 2.
// By the laws named here the check finds what a refused set-up leaves to show.
#[tactic(auto, using(crate::proofs::Loads::replies_alike, crate::proofs::Loads::refused_alike, call_replies::proofs::Refusals::numbered))]
pub fn load(table: &mut [u64], order: u64, seed: u64, count: u16) -> Result<(), Refusal>
    ensures result_value { done_of result ≡ load_reply table.old order }
    ensures table_after { table.new ≡ load_after table.old order seed count }
{
    let slots = table_limits::slots_for(table.len());
    // Not `?`: both refusals leave by this return, and the edits of must-fail/ that lose them stand at it.
    if let Err(reason) = call_build::set_up(table, order, LOAD_SALT) {
        return Err(reason);
    }
    // Words that were set up have a table's length.
    operate_within(table, slots.unwrap(), seed, count);
    Ok(())
}
