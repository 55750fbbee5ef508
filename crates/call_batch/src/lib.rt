// Looking a batch of keys up together, in a table of any words. A batch is document 02's sheet, a question one of its records.
#![tactic(auto)]

ghost use Rattle.std.specs.Prelude.{true, map, ◌≡◌, ◌<◌, length};
ghost use Rattle.table.specs.Contents.{rising_keys};
ghost use Rattle.table_limits.specs.Lengths.{slots_for};
ghost use Rattle.table_judge.specs.Judge.{is_sound};
ghost use Rattle.call_replies.specs.Replies.{sized_of};
ghost use Rattle.call_batch.specs.Batch.{keys_of, answered, batch_reply, batch_after};
ghost use Rattle.call_batch.specs.Answering.{nothing_asked, line_after, line_of, progress, Ready, Askable};

use call_replies::Refusal;
use priority::Constants;

// A line of a batch: its key, and places for what a lookup of the key says: one where it is held, else zero; and its rank, zero where it is
// absent.
#[repr(C)]
#[derive(Clone, Copy)]
pub struct Question {
    pub key: u64,
    pub held: u64,
    pub rank: u64,
}

// What the lines answered so far leave for the next: the key, the held mark and the rank of the last, the key of the one before it, and how
// many different blocks they met. All zeros before the first line.
#[derive(Clone, Copy, Default)]
struct Progress {
    key: u64,
    held: u64,
    rank: u64,
    before: u64,
    blocks: usize,
}

impl Progress {
    // What is left after the line of a key is answered too, in a table of `many` slots. The constants of the priorities are lent.
    fn line_after(self, table: &[u64], many: usize, constants: &Constants, key: u64) -> Progress
        requires { (is_sound table.now ≡ true) × (many ≡ slots_for (length table.now)) × Ready self key }
        ensures { result ≡ line_after table.now self key }
    {
        let looked = table_descend::look_up_after(
            table,
            many,
            key,
            self.key,
            self.before,
            constants,
        );
        let absent = Progress {
            key,
            held: 0,
            rank: 0,
            before: self.key,
            blocks: self.blocks + looked.blocks,
        };
        match looked.standing {
            Some(standing) => Progress {
                held: 1,
                rank: standing.rank,
                ..absent
            },
            None => absent,
        }
    }

    // The last line answered.
    fn last_line(self) -> Question
        ensures { result ≡ line_of self }
    {
        Question {
            key: self.key,
            held: self.held,
            rank: self.rank,
        }
    }
}

// Whether the keys of a batch rise strictly and none is zero.
fn rising(questions: &[Question]) -> bool
    ensures { result ≡ rising_keys (keys_of questions.now) }
{
    let mut last = 0;
    for question in questions {
        if question.key <= last {
            return false;
        }
        last = question.key;
    }
    true
}

// Answer each line of a batch; how many different blocks they met. The constants of the priorities are lent.
fn fill(table: &[u64], many: usize, constants: &Constants, questions: &mut [Question]) -> usize
    requires { (is_sound table.now ≡ true) × (many ≡ slots_for (length table.now)) × Askable table.now nothing_asked (keys_of questions.old) }
    ensures blocks_value { result ≡ (progress table.now nothing_asked (keys_of questions.old)).blocks }
    ensures questions_after { questions.new ≡ map (answered table.now) questions.old }
{
    let mut so_far = Progress::default();
    for question in questions.iter_mut() {
        so_far = so_far.line_after(table, many, constants, question.key);
        let line = so_far.last_line();
        *question = line;
    }
    so_far.blocks
}

// Answer a batch whose keys rise, over a table of `many` slots, with the constants of the priorities made for it, once for the judging and for
// all lines. Not put in line: a batch that is refused before would clear their room too.
#[inline(never)]
fn answer(table: &[u64], many: usize, questions: &mut [Question]) -> Result<usize, Refusal>
    requires { (many ≡ slots_for (length table.now)) × (0 < many) × (rising_keys (keys_of questions.old) ≡ true) }
    ensures reply_value { sized_of result ≡ batch_reply table.now questions.old }
    ensures questions_after { questions.new ≡ batch_after table.now questions.old }
{
    let constants = Constants::new();
    if !table_judge::judge(table, &constants) {
        return Err(Refusal::NotSound);
    }
    Ok(fill(table, many, &constants, questions))
}

// Look the keys of a batch up, and fill in at each whether it is held, and its rank; how many different blocks hold the keys compared. The
// table is judged once. Refusals: 1, 5, 7; then no line is filled in.
pub fn look_up_batch(table: &[u64], questions: &mut [Question]) -> Result<usize, Refusal>
    ensures reply_value { sized_of result ≡ batch_reply table.now questions.old }
    ensures questions_after { questions.new ≡ batch_after table.now questions.old }
{
    let Some(many) = table_limits::slots_for(table.len()) else {
        return Err(Refusal::WrongLength);
    };
    if !rising(questions) {
        return Err(Refusal::NotRising);
    }
    answer(table, many, questions)
}
