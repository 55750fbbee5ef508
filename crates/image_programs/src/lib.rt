// What the programs print of the image on their standard input: its listing, or the printed pages of what it holds.
#![tactic(auto)]

ghost use Rattle.std.specs.Prelude.{true, ◌≡◌, ◌≤◌, length, OnOk};
ghost use Rattle.table.specs.Layout.{table_words};
ghost use Rattle.table_judge.specs.Judge.{is_sound};
ghost use Rattle.image.specs.Image.{read_image, is_image};
ghost use Rattle.text.specs.Written.{Written};
ghost use Rattle.text_listing.specs.Listing.{listing_of};
ghost use Rattle.text_pages.specs.Pages.{pages_of};
ghost use Rattle.call_replies.specs.Replies.{done_of};
ghost use Rattle.call_meaning.specs.Reasons.{shown};
ghost use Rattle.image_programs.specs.Printed.{program_slots, program_bytes, program_room, program_refusal, refused_text, text_as, printed, ReadInto, Prints};

use call_replies::Refusal;

// What is printed. An enum, and no function lent for it, since `specs/Printed.Prints` says what is printed of each kind.
#[derive(Clone, Copy)]
pub enum Kind {
    Listing,
    Pages,
}

// The most bytes that a program reads.
const PROGRAM_BYTES: usize = 50023;

// Read an image into a table of 1,000 slots.
fn read_in(table: &mut [u64], image: &[u8]) -> Result<(), Refusal>
    requires { (length table.old ≡ table_words program_slots) × (length image.now ≤ program_bytes) }
    ensures refusal { (done_of result).refusal ≡ program_refusal image.now }
    ensures read_into { OnOk result (ReadInto table.new image.now) }
{
    call_image::read(table, image)
}

// Write what is printed of a refusal.
fn put_refused(output: &mut [u8], number: u64) -> usize
    requires { program_room ≤ length output.old }
    ensures { Written output.old 0 (refused_text number) output.new result }
{
    let word = text::put_bytes(output, 0, b"refused ");
    let end = text::put_decimal(output, word, number);
    text::put_bytes(output, end, b"\n")
}

// Write the listing of an image.
fn put_listing(image: &[u8], output: &mut [u8]) -> usize
    requires { (is_image image.now ≡ true) × (length image.now ≤ program_bytes) × (program_room ≤ length output.old) }
    ensures { Written output.old 0 (listing_of (read_image image.now)) output.new result }
{
    let size = text_listing::size(image);
    text_listing::write(image, output);
    size
}

// Write the pages of a table.
fn put_pages(table: &[u64], output: &mut [u8]) -> usize
    requires { (is_sound table.now ≡ true) × (length (pages_of (shown table.now)) ≤ length output.old) }
    ensures { Written output.old 0 (pages_of (shown table.now)) output.new result }
{
    call_pages::pages(table, output).unwrap()
}

// Write the text of an image that was read into a table.
fn put_text(kind: Kind, table: &[u64], image: &[u8], output: &mut [u8]) -> usize
    requires { ReadInto table.now image.now × (program_room ≤ length output.old) }
    ensures { Written output.old 0 (text_as kind image.now) output.new result }
{
    match kind {
        Kind::Listing => put_listing(image, output),
        Kind::Pages => put_pages(table, output),
    }
}

// Write what is printed of the bytes, with words for a table of 1,000 slots to read them into.
fn print_in(kind: Kind, table: &mut [u64], image: &[u8], output: &mut [u8]) -> usize
    requires { (length table.old ≡ table_words program_slots) × (program_room ≤ length output.old) }
    ensures { Written output.old 0 (printed kind image.now) output.new result }
{
    if PROGRAM_BYTES < image.len() {
        return text::put_bytes(output, 0, b"too long\n");
    }
    match read_in(table, image) {
        Ok(()) => put_text(kind, table, image, output),
        Err(refusal) => put_refused(output, refusal.number()),
    }
}

// Write at the start of `output` what is printed of the bytes that were read; how many bytes that is. The output has room for all that is
// printed.
fn print(kind: Kind, image: &[u8], output: &mut [u8]) -> usize
    requires { program_room ≤ length output.old }
    ensures { Written output.old 0 (printed kind image.now) output.new result }
{
    let mut table = [0u64; 8004];
    print_in(kind, &mut table, image, output)
}

// Read standard input, up to as many bytes as the buffer has, and print its text, which is then at the start of `output`; how long that is. Internal
// to the programs: the buffer has one byte more than they read, so that they see when there are more.
pub fn run(kind: Kind, buffer: &mut [u8], output: &mut [u8]) -> usize
    requires { program_room ≤ length output.old }
    ensures { Prints kind buffer.new output.old output.new result }
{
    let got = io::read_full(0, buffer);
    let n = print(kind, &buffer[..got], output);
    if n <= output.len() {
        io::write_all(1, &output[..n]);
    }
    n
}
