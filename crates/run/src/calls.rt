// Each call with a line of text: the call, what it was given and, after the colon, its reply: the refusal's number, 0 for none, then the
// reply's numbers.
ghost use Rattle.std.specs.Prelude.{◌≡◌};
ghost use Rattle.call_step.specs.Steps.{step_place};

use call_replies::Refusal;
use index::{Place, Question};

pub fn say(text: &[u8]) {
    io::write_all(1, text);
}

fn say_first(text: &[u8], n: usize) {
    if n <= text.len() {
        say(&text[..n]);
    }
}

fn tell(number: u64) {
    io::write_all(1, b" ");
    io::print_decimal(1, number);
}

// A signed number, with a minus where it is below zero.
fn tell_signed(number: i64) {
    if number < 0 {
        io::write_all(1, b" -");
    } else {
        io::write_all(1, b" ");
    }
    io::print_decimal(1, number.unsigned_abs());
}

// What is told after a space.
trait Told: Copy {
    fn tell(self);
}

impl Told for u64 {
    fn tell(self) {
        tell(self);
    }
}

impl Told for i32 {
    fn tell(self) {
        tell_signed(i64::from(self));
    }
}

fn tell_all<T: Told>(numbers: &[T]) {
    for number in numbers {
        number.tell();
    }
}

fn refused(reason: Refusal) {
    tell(reason.number());
}

// The answer of a call that gives no number, of one that gives a rank, and of one that gives a size.
fn tell_done(answer: Result<(), Refusal>) {
    match answer {
        Ok(()) => tell(0),
        Err(reason) => refused(reason),
    }
}

fn tell_rank(answer: Result<u64, Refusal>) {
    match answer {
        Ok(rank) => {
            tell(0);
            tell(rank);
        }
        Err(reason) => refused(reason),
    }
}

fn tell_size(answer: Result<usize, Refusal>) {
    match answer {
        Ok(size) => {
            tell(0);
            tell(size as u64);
        }
        Err(reason) => refused(reason),
    }
}

pub fn set_up(table: &mut [u64], order: u64, salt: u64) {
    say(b"set-up of words");
    tell(table.len() as u64);
    say(b" order");
    tell(order);
    say(b" salt");
    tell(salt);
    say(b":");
    let answer = index::set_up(table, order, salt);
    tell_done(answer);
    say(b"\n");
}

pub fn load(table: &mut [u64], order: u64, seed: u64, count: u16) {
    say(b"load of order");
    tell(order);
    say(b" seed");
    tell(seed);
    say(b" count");
    tell(count as u64);
    say(b":");
    let answer = index::load(table, order, seed, count);
    tell_done(answer);
    say(b"\n");
}

pub fn build(
    table: &mut [u64],
    order: u64,
    salt: u64,
    list: &[u64],
    lengths: &[u64],
    corrections: &[i32],
) {
    say(b"build of order");
    tell(order);
    say(b" salt");
    tell(salt);
    say(b" from");
    tell_all(list);
    say(b" lengths");
    tell_all(lengths);
    say(b" corrections");
    tell_all(corrections);
    say(b":");
    let answer = index::build(table, order, salt, list, lengths, corrections);
    tell_done(answer);
    say(b"\n");
}

pub fn insert(table: &mut [u64], key: u64, length: u64, correction: i32) {
    say(b"insert");
    tell(key);
    say(b" measure");
    tell(length);
    correction.tell();
    say(b":");
    let answer = index::insert(table, key, length, correction);
    tell_rank(answer);
    say(b"\n");
}

pub fn delete(table: &mut [u64], key: u64) {
    say(b"delete");
    tell(key);
    say(b":");
    let answer = index::delete(table, key);
    tell_rank(answer);
    say(b"\n");
}

pub fn look_up(table: &[u64], key: u64) {
    say(b"lookup");
    tell(key);
    say(b":");
    let answer = index::look_up(table, key);
    match answer {
        Ok(looked) => match looked.standing {
            Some(standing) => {
                say(b" 0 held");
                tell(standing.rank);
                tell(standing.count);
                tell(standing.leader);
                tell(looked.blocks as u64);
                say(b" measure");
                tell(standing.length);
                tell_signed(standing.correction);
            }
            None => {
                say(b" 0 absent");
                tell(looked.blocks as u64);
            }
        },
        Err(reason) => refused(reason),
    }
    say(b"\n");
}

// A line of a batch before its answer: in its places stand numbers that no answer here gives.
fn asks(key: u64) -> Question {
    Question {
        key,
        held: 9,
        rank: 9,
    }
}

fn tell_line(line: Question) {
    say(b" line");
    tell(line.key);
    tell(line.held);
    tell(line.rank);
}

// A batch of three keys, and its lines after it.
pub fn look_up_batch(table: &[u64], first: u64, second: u64, third: u64) {
    let mut lines = [asks(first), asks(second), asks(third)];
    say(b"batch");
    tell(first);
    tell(second);
    tell(third);
    say(b":");
    tell_size(index::look_up_batch(table, &mut lines));
    for line in lines {
        tell_line(line);
    }
    say(b"\n");
}

// A range with room for two keys.
pub fn range(table: &[u64], low: u64, high: u64) {
    let mut output = [0u64; 2];
    say(b"range");
    tell(low);
    tell(high);
    say(b":");
    let answer = index::range(table, low, high, &mut output);
    match answer {
        Ok(n) => {
            tell(0);
            tell(n as u64);
            tell_all(&output);
        }
        Err(reason) => refused(reason),
    }
    say(b"\n");
}

pub fn write(table: &[u64], image: &mut [u8]) {
    say(b"write:");
    let answer = index::write(table, image);
    tell_size(answer);
    say(b"\n");
}

pub fn read(table: &mut [u64], image: &[u8]) {
    say(b"read:");
    let answer = index::read(table, image);
    tell_done(answer);
    say(b"\n");
}

// The answer of a call that writes a text, and the text after the line.
fn tell_text(answer: Result<usize, Refusal>, text: &[u8]) {
    match answer {
        Ok(n) => {
            tell(0);
            tell(n as u64);
            say(b"\n");
            say_first(text, n);
        }
        Err(reason) => {
            refused(reason);
            say(b"\n");
        }
    }
}

pub fn list(image: &[u8], output: &mut [u8]) {
    say(b"list:");
    let answer = index::list(image, output);
    tell_text(answer, output);
}

pub fn pages(table: &[u64], output: &mut [u8]) {
    say(b"pages:");
    let answer = index::pages(table, output);
    tell_text(answer, output);
}

// A step from a place, which it moves on.
pub fn step(table: &[u64], place: &mut Place)
    ensures { place.new ≡ step_place table.now place.old }
{
    say(b"step:");
    let answer = index::step(table, place);
    match answer {
        Ok(Some(key)) => {
            say(b" 0 key");
            tell(key);
        }
        Ok(None) => {
            say(b" 0 end");
        }
        Err(reason) => refused(reason),
    }
    say(b"\n");
}

// The size of a length and a correction, in half points, and the rest.
pub fn points(length: u64, correction: i32) {
    say(b"points of");
    tell(length);
    correction.tell();
    say(b":");
    let answer = index::points(length, correction);
    match answer {
        Ok(Some(size)) => {
            say(b" 0 half points");
            tell(size.half_points);
            say(b" rest");
            tell_signed(size.rest);
        }
        Ok(None) => say(b" 0 not measured"),
        Err(reason) => refused(reason),
    }
    say(b"\n");
}
