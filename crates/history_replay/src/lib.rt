// Running a history of calls that is written down in words.
#![tactic(auto)]

ghost use Rattle.std.specs.Prelude.{◌≡◌};
ghost use Rattle.history.specs.Call.{run, runs};
ghost use Rattle.history_replay.specs.Script.{call_of, call_meant, calls_in, BuiltFromBook};

// The numbers of the calls; any other number is a lookup.
pub const SET_UP: u64 = 0;

pub const INSERT: u64 = 1;

pub const DELETE: u64 = 2;

// A call of a script, with its order or key.
#[derive(Clone, Copy)]
enum ScriptCall {
    SetUp(u64),
    Insert(u64),
    Delete(u64),
    LookUp(u64),
}

impl ScriptCall {
    // The call that two words of a script name.
    fn named(kind: u64, value: u64) -> ScriptCall
        ensures { call_meant result ≡ call_of kind value }
    {
        if kind == SET_UP {
            return ScriptCall::SetUp(value);
        }
        if kind == INSERT {
            return ScriptCall::Insert(value);
        }
        if kind == DELETE {
            return ScriptCall::Delete(value);
        }
        ScriptCall::LookUp(value)
    }

    // Run it over a table: a set-up has salt zero, and a key that is inserted is not measured. What it answers is not reported.
    fn run(self, table: &mut [u64])
        ensures { table.new ≡ run (call_meant self) table.old }
    {
        match self {
            ScriptCall::SetUp(order) => {
                let _ = index::set_up(table, order, 0);
            }
            ScriptCall::Insert(key) => {
                let _ = index::insert(table, key, 0, 0);
            }
            ScriptCall::Delete(key) => {
                let _ = index::delete(table, key);
            }
            ScriptCall::LookUp(key) => {
                let _ = index::look_up(table, key);
            }
        }
    }
}

// Run the calls of a script, two words a call, over a table; refused calls change nothing. Where the first call is an accepted set-up, the
// script is a history, and the table is then the one built afresh from its book.
pub fn replay(table: &mut [u64], script: &[u64])
    ensures table_after { table.new ≡ runs (calls_in script.now) table.old }
    ensures built_from_book { BuiltFromBook script.now table.old table.new }
{
    let mut rest = script;
    while let [kind, value, later @ ..] = rest {
        ScriptCall::named(*kind, *value).run(table);
        rest = later;
    }
}
