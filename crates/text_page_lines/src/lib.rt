// The lines of printed pages, written into a lent output at an index. Internal to this library's crates: their outputs have room for it.
// Each function answers the index after what it wrote.
#![tactic(auto)]

ghost use Rattle.std.specs.Prelude.{true, ◌≡◌, ◌+◌, ◌<◌, ◌≤◌, length};
ghost use Rattle.measure.specs.Tag.{measure_at, is_tag};
ghost use Rattle.paris_points.specs.Points.{size_of};
ghost use Rattle.paris_points.specs.Claims.{greatest_half_points};
ghost use Rattle.text.specs.Written.{Written};
ghost use Rattle.text_page_lines.specs.PageLines.{heading_line, points_text, size_text, column, page_line};
ghost use Rattle.text_page_lines.specs.Claims.{column_limit};

// The digits of a page's number.
const NUMBER_DIGITS: usize = 4;

// A right-aligned column with the space before it, and what of it is before a size's point.
const SPACED_COLUMN: usize = 5;

const BEFORE_POINT: usize = 3;

// Write the line of a page's number. Internal.
pub fn put_heading(output: &mut [u8], at: usize, number: u64) -> usize
    requires { at + length (heading_line number) ≤ length output.old }
    ensures { Written output.old at (heading_line number) output.new result }
{
    let named = text::put_bytes(output, at, b"PAGE ");
    let numbered = text::put_digits(output, named, 10, NUMBER_DIGITS, number);
    text::put_bytes(output, numbered, b"\n")
}

// Write a space and a size of so many half points, in Paris points, right-aligned in its column.
fn put_points(output: &mut [u8], at: usize, half_points: u64) -> usize
    requires { (half_points ≤ greatest_half_points) × (at + length (column (points_text half_points)) ≤ length output.old) }
    ensures { Written output.old at (column (points_text half_points)) output.new result }
{
    let whole = half_points / 2;
    let point = text::put_aligned(output, at, BEFORE_POINT, whole);
    let tenth = text::put_bytes(output, point, b".");
    text::put_decimal(output, tenth, 5 * (half_points % 2))
}

// Write a space and the size of the measure that has a tag, a hyphen where it is not measured.
fn put_size(output: &mut [u8], at: usize, tag: u64) -> usize
    requires { (is_tag tag ≡ true) × (at + length (column (size_text (size_of (measure_at tag)))) ≤ length output.old) }
    ensures { Written output.old at (column (size_text (size_of (measure_at tag)))) output.new result }
{
    if measure::length_in(tag) == 0 {
        return text::put_bytes(output, at, b"    -");
    }
    put_points(output, at, paris_points::half_points_in(tag))
}

// Write the line of a key, with the tag of its measure. Internal.
pub fn put_key_line(
    output: &mut [u8],
    at: usize,
    key: u64,
    rank: u64,
    count: u64,
    leader: u64,
    tag: u64,
) -> usize
    requires { (rank < column_limit) × (count < column_limit) × (is_tag tag ≡ true) × (at + length (page_line key rank count leader (size_of (measure_at tag))) ≤ length output.old) }
    ensures { Written output.old at (page_line key rank count leader (size_of (measure_at tag))) output.new result }
{
    let named = text::put_hexadecimal(output, at, key);
    let ranked = text::put_aligned(output, named, SPACED_COLUMN, rank);
    let counted = text::put_aligned(output, ranked, SPACED_COLUMN, count);
    let led = text_lines::put_key(output, counted, b" ", leader);
    let sized = put_size(output, led, tag);
    text::put_bytes(output, sized, b"\n")
}
