// A line of a listing: how long it is, and writing it into a lent output at an index.
ghost use Rattle.std.specs.Prelude.{◌≡◌, ◌+◌, ◌*◌, ◌≤◌, length};
ghost use Rattle.text.specs.Written.{Written};
ghost use Rattle.text_listing.specs.Lines.{text_of, record_bytes};
ghost use Rattle.text_listing.specs.Shown.{most_growth};

// A line, by the numbers that it shows.
#[derive(Clone, Copy)]
pub enum Line {
    Header {
        order: u64,
        keys: u64,
        blocks: u64,
        fill: u64,
        root: u64,
    },
    Block {
        leader: u64,
        level: u64,
        keys: u64,
    },
    Key {
        key: u64,
        rank: u64,
        count: u64,
    },
}

impl Line {
    // How long it is.
    #[inline(always)]
    pub fn length(self) -> usize
        ensures value { result ≡ length (text_of self) }
        ensures upper_bound { result ≤ most_growth * record_bytes self }
    {
        match self {
            Line::Header {
                order,
                keys,
                blocks,
                fill,
                root,
            } => text_lines::header_length(order, keys, blocks, fill, root),
            Line::Block {
                leader,
                level,
                keys,
            } => text_lines::block_length(leader, level, keys),
            Line::Key { key, rank, count } => text_lines::key_length(key, rank, count),
        }
    }

    // Write it. The index after it.
    #[inline(always)]
    pub fn put(self, output: &mut [u8], at: usize) -> usize
        requires { at + length (text_of self) ≤ length output.old }
        ensures { Written output.old at (text_of self) output.new result }
    {
        match self {
            Line::Header {
                order,
                keys,
                blocks,
                fill,
                root,
            } => text_lines::put_header_line(output, at, order, keys, blocks, fill, root),
            Line::Block {
                leader,
                level,
                keys,
            } => text_lines::put_block_line(output, at, leader, level, keys),
            Line::Key { key, rank, count } => text_lines::put_key_line(
                output, at, key, rank, count,
            ),
        }
    }
}
