// Reading a range key by key. Each step takes any words and any place; what it refuses it leaves as it was.
#![tactic(auto)]

ghost use Rattle.std.specs.Prelude.{◌≡◌};
ghost use Rattle.table_judge.specs.Judge.{is_sound};
ghost use Rattle.call_replies.specs.Replies.{stepped_of};
ghost use Rattle.call_step.specs.Steps.{place_of, place_from, whole_place, spent_place, passed, place_after, step_reply, step_place};

use call_replies::Refusal;
use priority::Constants;

// The greatest key there is.
pub const GREATEST_KEY: u64 = 18446744073709551615;

// Where a step goes on: the least key that it may yield and the greatest, and whether there is nothing more to yield.
#[derive(Clone, Copy, Debug, PartialEq, Eq)]
pub struct Place {
    pub next: u64,
    pub high: u64,
    pub done: bool,
}

impl Place {
    // The place for the whole library.
    pub const ALL: Place = Place {
        next: 0,
        high: GREATEST_KEY,
        done: false,
    };

    // The spent place.
    pub const SPENT: Place = Place {
        next: 0,
        high: 0,
        done: true,
    };

    // The place for the keys from `low` to `high`, both included.
    pub fn new(low: u64, high: u64) -> Place
        ensures { result ≡ place_from low high }
    {
        Place {
            next: low,
            high,
            done: false,
        }
    }

    // The place past a key: one more goes on, and after the greatest there is none.
    fn past(self, key: u64) -> Place
        ensures { result ≡ passed key self }
    {
        if key == GREATEST_KEY {
            return Place { done: true, ..self };
        }
        Place {
            next: key + 1,
            ..self
        }
    }

    // The place after a step from this one that answered so: past the key, done at the end, and as it was after a refusal.
    fn after(self, answer: Result<Option<u64>, Refusal>) -> Place
        ensures { result ≡ place_after answer self }
    {
        match answer {
            Ok(Some(last)) => self.past(last),
            Ok(None) => Place { done: true, ..self },
            Err(_) => self,
        }
    }
}

// The place for the whole library, `Place::ALL`.
pub fn whole_place() -> Place
    ensures { result ≡ whole_place }
{
    Place::ALL
}

// The spent place, `Place::SPENT`.
pub fn spent_place() -> Place
    ensures { result ≡ spent_place }
{
    Place::SPENT
}

// The answer of a step, the next key or none at the end, and the place after it.
#[derive(Clone, Copy)]
pub struct Moved {
    pub answer: Result<Option<u64>, Refusal>,
    pub place: Place,
}

// Whether a table is sound, with the constants of the priorities made for it.
fn judge(table: &[u64]) -> bool
    ensures { result ≡ is_sound table.now }
{
    table_judge::judge(table, &Constants::new())
}

// The key that a step from a place answers: the least that the table holds from its `next` to its `high`; none where there is none, and
// where the place is done. Refusals: 1, 7.
fn key_from(table: &[u64], place: Place) -> Result<Option<u64>, Refusal>
    ensures answer_value { stepped_of result ≡ step_reply table.now place }
    ensures place_value { place_after result place ≡ step_place table.now place }
{
    let Some(many) = table_limits::slots_for(table.len()) else {
        return Err(Refusal::WrongLength);
    };
    if !judge(table) {
        return Err(Refusal::NotSound);
    }
    if place.done {
        return Ok(None);
    }
    let key = table_least::least_within(table, many, place.next, place.high);
    Ok(key)
}

// The least key that the table holds from `next` to `high`, and the place after it; the end where there is none, and where the
// place is done. Refusals: 1, 7.
pub fn step_at(table: &[u64], next: u64, high: u64, done: bool) -> Moved
    ensures answer_value { stepped_of result.answer ≡ step_reply table.now (place_of next high done) }
    ensures place_value { result.place ≡ step_place table.now (place_of next high done) }
{
    let place = Place { next, high, done };
    let answer = key_from(table, place);
    Moved {
        answer,
        place: place.after(answer),
    }
}

// Take one step: answer as `step_at` does, and move the place on where it lies. Refusals: 1, 7.
pub fn step(table: &[u64], place: &mut Place) -> Result<Option<u64>, Refusal>
    ensures answer_value { stepped_of result ≡ step_reply table.now place.old }
    ensures place_after { place.new ≡ step_place table.now place.old }
{
    let moved = step_at(table, place.next, place.high, place.done);
    *place = moved.place;
    moved.answer
}
