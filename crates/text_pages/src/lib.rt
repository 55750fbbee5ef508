// The printed pages of keys, written into a lent output. Beside the keys stand the tags of their measures, and the columns of their ranks, their
// counts and their leaders, these as positions.
#![tactic(auto)]

ghost use Rattle.std.specs.Prelude.{◌≡◌, ◌+◌, ◌<◌, ◌≤◌, length};
ghost use Rattle.table.specs.Layout.{most_slots};
ghost use Rattle.treap_columns.specs.Lent.{lists_of};
ghost use Rattle.text.specs.Written.{Written};
ghost use Rattle.text_pages.specs.Pages.{page_count};
ghost use Rattle.text_pages.specs.Claims.{pages_bytes};
ghost use Rattle.text_pages.specs.Shown.{shown_line, shown_lines, shown_page, shown_pages, Printable};

use treap_columns::LentColumns;

// The keys of a full page, the bytes of the line of its number, and those of a key's line.
const PAGE_KEYS: usize = 50;

const HEADING_BYTES: usize = 10;

const KEY_BYTES: usize = 49;

// How many pages so many keys take.
fn page_count(n: usize) -> usize
    requires { n ≤ most_slots }
    ensures { result ≡ page_count n }
{
    n.div_ceil(PAGE_KEYS).max(1)
}

// How long the pages of so many keys are. Internal to this library's crates: a table has no more.
pub fn size(n: usize) -> usize
    requires { n ≤ most_slots }
    ensures { result ≡ pages_bytes n }
{
    HEADING_BYTES * page_count(n) + KEY_BYTES * n
}

// Write the line of the key at an index.
fn put_key(
    keys: &[u64],
    tags: &[u64],
    columns: LentColumns<'_>,
    i: usize,
    output: &mut [u8],
    at: usize,
) -> usize
    requires printable { Printable keys.now tags.now (lists_of columns) × (i < length keys.now) }
    requires room { at + length (shown_line keys.now tags.now (lists_of columns) i) ≤ length output.old }
    ensures { Written output.old at (shown_line keys.now tags.now (lists_of columns.entry) i) output.new result }
{
    let above = table_encode::key_at(keys, columns.leader[i] as usize);
    text_page_lines::put_key_line(
        output,
        at,
        keys[i],
        columns.rank[i] as u64,
        columns.count[i] as u64,
        above,
        tags[i],
    )
}

// Write the lines of the keys from one index up to another, that one left out.
fn put_keys(
    keys: &[u64],
    tags: &[u64],
    columns: LentColumns<'_>,
    from: usize,
    to: usize,
    output: &mut [u8],
    at: usize,
) -> usize
    requires printable { Printable keys.now tags.now (lists_of columns) × (from ≤ to) × (to ≤ length keys.now) }
    requires room { at + length (shown_lines keys.now tags.now (lists_of columns) from to) ≤ length output.old }
    ensures { Written output.old at (shown_lines keys.now tags.now (lists_of columns.entry) from to) output.new result }
{
    let mut end = at;
    for i in from..to {
        end = put_key(keys, tags, columns, i, output, end);
    }
    end
}

// Write a page, with so many pages before it: the line of its number, and those of its keys.
fn put_page(
    keys: &[u64],
    tags: &[u64],
    columns: LentColumns<'_>,
    before: usize,
    output: &mut [u8],
    at: usize,
) -> usize
    requires printable { Printable keys.now tags.now (lists_of columns) × (before < page_count (length keys.now)) }
    requires room { at + length (shown_page keys.now tags.now (lists_of columns) before) ≤ length output.old }
    ensures { Written output.old at (shown_page keys.now tags.now (lists_of columns.entry) before) output.new result }
{
    let from = PAGE_KEYS * before;
    let to = (from + PAGE_KEYS).min(keys.len());
    let headed = text_page_lines::put_heading(output, at, before as u64 + 1);
    put_keys(keys, tags, columns, from, to, output, headed)
}

// Write the pages from the start of the output on; later bytes stay. How long they are. Internal to this library's crates: the lists are those of a
// table's keys, and there is room for their pages.
pub fn write(keys: &[u64], tags: &[u64], columns: LentColumns<'_>, output: &mut [u8]) -> usize
    requires printable { Printable keys.now tags.now (lists_of columns) }
    requires room { length (shown_pages keys.now tags.now (lists_of columns)) ≤ length output.old }
    ensures { Written output.old 0 (shown_pages keys.now tags.now (lists_of columns.entry)) output.new result }
{
    let pages = page_count(keys.len());
    let mut end = 0;
    for before in 0..pages {
        end = put_page(keys, tags, columns, before, output, end);
    }
    end
}
