// Runs the calls: first on the figures of documents 01 and 02, then loads, then a session on three slots in which keys come with measures and
// without, are looked up alone and together, a range is read at once and key by key and an image is written, read and listed and pages
// are printed, then a table with a salt, then over words that are no table and a table that is not sound, and last sizes in Paris points. Every refusal of every call is met.
#![tactic(auto)]

use index::Place;

mod calls;

// The most words that a length is tried with.
const MOST_WORDS: usize = 32780;

// The words of a table of three slots and of one slot, and so many words as no table has.
const THREE_SLOTS: usize = 28;

const ONE_SLOT: usize = 12;

const NO_TABLE: usize = 27;

// The bytes of the image of three keys in one block, two of them measured.
const THREE_KEYS: usize = 131;

// Where such an image has its number of keys, and the third byte of its first key's length.
const KEYS_AT: usize = 3;

const LENGTH_AT: usize = 61;

// The bytes of the image of two keys, one of them measured, with a salt; in it the second byte of its mark, and the salt's first byte.
const TWO_SALTED: usize = 103;

const MARK_AT: usize = 1;

const SALT_AT: usize = 15;

// Room for the listing of such an image.
const LISTING: usize = 200;

// The bytes of a page with three keys.
const PAGE: usize = 157;

// A set-up of the first `n` words.
fn set_up_first(words: &mut [u64], n: usize) {
    if words.len() < n {
        return;
    }
    calls::set_up(&mut words[..n], 3, 0);
}

// Lengths that are a table's and lengths that are none.
fn lengths(words: &mut [u64]) {
    set_up_first(words, 12);
    set_up_first(words, 32772);
    set_up_first(words, 4);
    set_up_first(words, 11);
    set_up_first(words, 13);
    set_up_first(words, 32780);
}

fn try_lengths() {
    let mut words = [0u64; MOST_WORDS];
    lengths(&mut words);
}

// Orders that a table may have and orders that none has.
fn orders(table: &mut [u64]) {
    calls::set_up(table, 3, 0);
    calls::set_up(table, 255, 0);
    calls::set_up(table, 2, 0);
    calls::set_up(table, 256, 0);
}

// Loads of no operation, of a few and of as many as there can be, and the keys that they leave; and loads of orders that no table has.
fn loads(table: &mut [u64]) {
    calls::load(table, 3, 0, 0);
    walk(table, Place::ALL);
    calls::load(table, 3, 0, 3);
    walk(table, Place::ALL);
    calls::load(table, 3, 0, 65535);
    walk(table, Place::ALL);
    calls::load(table, 2, 0, 3);
    calls::load(table, 256, 0, 3);
}

// A build from 5 and 9, neither measured.
fn build_plain(table: &mut [u64], order: u64) {
    calls::build(table, order, 0, &[5, 9], &[0, 0], &[0, 0]);
}

// A build from 5 and 9 with a length that no last has.
fn build_outside(table: &mut [u64]) {
    calls::build(table, 3, 0, &[5, 9], &[9999, 0], &[0, 0]);
}

// Builds from 5 and 9 that lack a length or a correction; and one whose keys do not rise either.
fn build_short(table: &mut [u64]) {
    calls::build(table, 3, 0, &[9, 5], &[26500], &[-250, 0]);
    calls::build(table, 3, 0, &[5, 9], &[26500], &[-250, 0]);
    calls::build(table, 3, 0, &[5, 9], &[26500, 0], &[-250]);
}

// Builds from 5 and 9 with a length or a correction left over: beside no key, or beside a key that is not measured.
fn build_long(table: &mut [u64]) {
    calls::build(table, 3, 0, &[5, 9], &[26500, 0, 0], &[-250, 0]);
    calls::build(table, 3, 0, &[5, 9], &[26500, 0], &[-250, 0, 0]);
    calls::build(table, 3, 0, &[5, 9], &[26500, 0], &[-250, 1]);
}

// Builds that are refused, and one that is not: 5 is measured, 9 is not.
fn builds(table: &mut [u64]) {
    build_plain(table, 2);
    build_outside(table);
    build_short(table);
    build_long(table);
    calls::build(table, 3, 0, &[5, 9], &[26500, 0], &[-250, 0]);
}

// Keys that come with measures outside the rules: zero first, which has a refusal of its own, and a held key last.
fn insert_outside(table: &mut [u64]) {
    calls::insert(table, 0, 9999, 0);
    calls::insert(table, 7, 9999, 0);
    calls::insert(table, 7, 40001, 0);
    calls::insert(table, 7, 26500, -5001);
    calls::insert(table, 7, 26500, 5001);
    calls::insert(table, 7, 0, 250);
    calls::insert(table, 9, 9999, 0);
}

// Keys that come, into three slots.
fn fill(table: &mut [u64]) {
    builds(table);
    insert_outside(table);
    calls::insert(table, 9, 0, 0);
    calls::insert(table, 7, 40000, 5000);
    calls::insert(table, 8, 0, 0);
}

// What is then held.
fn ask(table: &[u64]) {
    calls::look_up(table, 0);
    calls::look_up(table, 5);
    calls::look_up(table, 7);
    calls::look_up(table, 9);
    calls::look_up(table, 8);
    calls::look_up_batch(table, 5, 6, 9);
    calls::look_up_batch(table, 5, 5, 9);
    calls::look_up_batch(table, 0, 5, 9);
    calls::range(table, 9, 5);
    calls::range(table, 5, 9);
    calls::range(table, 6, 9);
}

// Four steps from a place, each from where the one before left it.
fn walk(table: &[u64], mut place: Place) {
    for _ in 0..4 {
        calls::step(table, &mut place);
    }
}

// The range key by key: the whole library, a part of it, and from a spent place.
fn walks(table: &[u64]) {
    calls::say(b"the whole library\n");
    walk(table, Place::ALL);
    calls::say(b"from 6 to 9\n");
    walk(table, Place::new(6, 9));
    calls::say(b"a spent place\n");
    walk(table, Place::SPENT);
}

// Keys that go; the measure of one that stays; and a key that comes again, with another measure.
fn take(table: &mut [u64]) {
    calls::delete(table, 0);
    calls::delete(table, 8);
    calls::delete(table, 7);
    calls::look_up(table, 5);
    calls::insert(table, 7, 10000, -5000);
    calls::look_up(table, 7);
}

// A byte of an image is changed.
fn change(image: &mut [u8], at: usize, byte: u8) {
    if at < image.len() {
        image[at] = byte;
    }
}

// An image read into a table that was blank, and the measures that it brings.
fn read_back(table: &mut [u64], image: &[u8]) {
    calls::set_up(table, 3, 0);
    calls::read(table, image);
    calls::look_up(table, 5);
    calls::look_up(table, 7);
    calls::look_up(table, 9);
}

// More keys than a table of one slot takes, and measures outside the rules besides.
fn overfill(image: &[u8]) {
    let mut little = [0u64; ONE_SLOT];
    calls::read(&mut little, image);
    build_outside(&mut little);
    build_plain(&mut little, 3);
}

// An image that is none: first with a length that no last has, then with another number of keys.
fn no_image(table: &mut [u64], image: &mut [u8], text: &mut [u8]) {
    change(image, LENGTH_AT, 1);
    calls::read(table, image);
    calls::list(image, text);
    change(image, LENGTH_AT, 0);
    change(image, KEYS_AT, 9);
    calls::read(table, image);
    calls::list(image, text);
}

// The image of a table of three keys: written, read and listed.
fn images(table: &mut [u64], image: &mut [u8], text: &mut [u8]) {
    let mut none = [0u8; 1];
    calls::write(table, &mut none);
    calls::write(table, image);
    read_back(table, image);
    overfill(image);
    calls::list(image, &mut none);
    calls::list(image, text);
    no_image(table, image, text);
}

fn try_images(table: &mut [u64]) {
    let mut image = [0u8; THREE_KEYS];
    let mut text = [0u8; LISTING];
    images(table, &mut image, &mut text);
}

// Bytes of an image with a salt that are none: `LH` with the salt's bytes, and `LS` with salt zero.
fn no_salted_image(table: &mut [u64], image: &mut [u8]) {
    change(image, MARK_AT, b'H');
    calls::read(table, image);
    change(image, MARK_AT, b'S');
    change(image, SALT_AT, 0);
    calls::read(table, image);
    change(image, SALT_AT, 5);
}

// A table whose salt is one of its keys, and its image.
fn write_salted(table: &mut [u64], image: &mut [u8]) {
    calls::build(table, 3, 5, &[5, 9], &[26500, 0], &[-250, 0]);
    calls::look_up(table, 5);
    calls::look_up(table, 9);
    calls::write(table, image);
    no_salted_image(table, image);
}

// A blank table of another salt, whose image has that too; then the table that is read of the image.
fn read_salted(table: &mut [u64], image: &[u8], text: &mut [u8]) {
    calls::set_up(table, 3, 7);
    calls::write(table, text);
    calls::read(table, image);
    calls::look_up(table, 5);
}

fn salts(table: &mut [u64], image: &mut [u8], text: &mut [u8]) {
    write_salted(table, image);
    calls::list(image, text);
    read_salted(table, image, text);
}

fn try_salts(table: &mut [u64]) {
    let mut image = [0u8; TWO_SALTED];
    let mut text = [0u8; LISTING];
    salts(table, &mut image, &mut text);
}

// The pages of a table, with too little room and with room for three keys.
fn pages(table: &[u64]) {
    let mut none = [0u8; 1];
    let mut text = [0u8; PAGE];
    calls::pages(table, &mut none);
    calls::pages(table, &mut text);
}

// The calls that need a sound table, over these words.
fn use_table(table: &mut [u64]) {
    let mut image = [0u8; THREE_KEYS];
    calls::insert(table, 7, 9999, 0);
    calls::insert(table, 7, 0, 0);
    calls::delete(table, 5);
    calls::look_up(table, 5);
    calls::look_up_batch(table, 5, 6, 9);
    calls::range(table, 5, 9);
    let mut place = Place::ALL;
    calls::step(table, &mut place);
    calls::write(table, &mut image);
    calls::pages(table, &mut image);
}

// The calls that make a table of any words, over these.
fn make_table(table: &mut [u64]) {
    let image = [0u8; THREE_KEYS];
    calls::set_up(table, 3, 0);
    calls::load(table, 2, 0, 3);
    build_plain(table, 3);
    calls::read(table, &image);
}

// Words that are no table.
fn no_table() {
    let mut words = [0u64; NO_TABLE];
    calls::say(b"words that are no table\n");
    make_table(&mut words);
    use_table(&mut words);
}

// Somebody else changes the number of keys of a table.
fn spoil(table: &mut [u64]) {
    if 1 < table.len() {
        table[1] = 4;
    }
}

// A table that is not sound.
fn damaged(table: &mut [u64]) {
    calls::say(b"a table that is not sound\n");
    spoil(table);
    use_table(table);
}

// Sizes: the figure of document 02, another with the same corrected length, a greatest rest, and the least and the greatest size.
fn sizes() {
    calls::points(26500, 0);
    calls::points(26750, -250);
    calls::points(26833, 0);
    calls::points(10000, -5000);
    calls::points(40000, 5000);
}

// Numbers that have no size: what is not measured, and measures outside the rules.
fn no_sizes() {
    calls::points(0, 0);
    calls::points(0, 250);
    calls::points(9999, 0);
    calls::points(40001, 0);
    calls::points(26500, -5001);
    calls::points(26500, 5001);
}

fn main() {
    try_lengths();
    let mut table = [0u64; THREE_SLOTS];
    orders(&mut table);
    loads(&mut table);
    calls::set_up(&mut table, 3, 0);
    pages(&table);
    fill(&mut table);
    ask(&table);
    walks(&table);
    take(&mut table);
    try_images(&mut table);
    pages(&table);
    try_salts(&mut table);
    no_table();
    damaged(&mut table);
    sizes();
    no_sizes();
}
