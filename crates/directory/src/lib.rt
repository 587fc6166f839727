// The look-ups of a two-level directory over bytes: how often a byte stands below a position, where
// the occurrence stands that has j others before it, and in which piece of 64 bytes it lies. The
// directory has rows of 256 numbers, one a superblock and one a block. Inner functions: their callers
// have checked the directory.
#![tactic(auto)]

ghost use Rattle.std.specs.Prelude.{ℕ, ◌≡◌, ◌+◌, ◌*◌, ◌/◌, ◌≤◌, ◌<◌, length, get_or, take};
ghost use Rattle.base.specs.Lists.{count_of, nth as nth_of};
ghost use Rattle.directory.specs.Counters.{Sizes, Directory};
ghost use Rattle.directory.specs.Tables.{LastOf, LastRow};
ghost use Rattle.directory.specs.Blocks.{BlockWith};

mod counted_bytes;

pub use counted_bytes::CountedBytes;

// How often a byte stands in a part of at most 255 bytes; the count is a byte itself, so that many
// bytes are compared at once.
fn count_few(part: &[u8], byte: u8) -> u8
    requires { length part.now ≤ 255 }
    ensures { result ≡ count_of byte part.now }
{
    let mut found: u8 = 0;
    for here in part {
        if *here == byte {
            found += 1;
        }
    }
    found
}

// How often a byte stands in a part.
pub fn count_in(part: &[u8], byte: u8) -> usize
    ensures { result ≡ count_of byte part.now }
{
    let mut found: usize = 0;
    for few in part.chunks(192) {
        found += usize::from(count_few(few, byte));
    }
    found
}

// A number of a row: one of a superblock row has 32 bits, one of a block row 16.
trait Number: Copy {
    ghost value: { Self → ℕ };

    fn widened(self) -> usize
        ensures { result ≡ value self };
}

impl Number for u32 {
    ghost value = { λ n. n };

    fn widened(self) -> usize {
        self as usize
    }
}

impl Number for u16 {
    ghost value = { λ n. n };

    fn widened(self) -> usize {
        usize::from(self)
    }
}

// The number of a byte in a row.
fn number_at<N: Number>(rows: &[N], row: usize, byte: u8) -> usize
    requires { row * 256 + byte < length rows.now }
    ensures { (d : N) → result ≡ N.value (get_or rows.now (row * 256 + byte) d) }
{
    rows[row * 256 + usize::from(byte)].widened()
}

// The last row from first to before end with at most j of a byte: by halves until so few rows are
// left, and then row by row.
fn last_row<N: Number>(
    rows: &[N],
    byte: u8,
    j: usize,
    first: usize,
    end: usize,
    few: usize,
) -> usize
    requires inside { (first < end) × (end * 256 ≤ length rows.now) × (1 ≤ few) }
    requires most { (d : N) → N.value (get_or rows.now (first * 256 + byte) d) ≤ j }
    ensures { (d : N) → LastOf (λ r. N.value (get_or rows.now (r * 256 + byte) d)) j first end result }
{
    let mut low = first;
    let mut high = end;
    while few < high - low {
        let middle = low + (high - low) / 2;
        if number_at(rows, middle, byte) <= j {
            low = middle;
        } else {
            high = middle;
        }
    }
    for row in low + 1..high {
        if j < number_at(rows, row, byte) {
            return row - 1;
        }
    }
    high - 1
}

// A row after first with more than j of a byte, or end: the rows 1, 2, 4, 8 and 16 after it are
// tried.
fn row_ahead(superblocks: &[u32], byte: u8, j: usize, first: usize, end: usize) -> usize
    requires { (first < end) × (end * 256 ≤ length superblocks.now) }
    ensures { (first < result) × (result ≤ end) × (result < end → j < get_or superblocks.now (result * 256 + byte) 0) }
{
    for step in [1, 2, 4, 8, 16usize] {
        if end - first <= step {
            return end;
        }
        let row = first + step;
        if j < number_at(superblocks, row, byte) {
            return row;
        }
    }
    end
}

// The last superblock row with at most j of a byte: sought from a row on where that one has at most
// j, and among all rows where it has more or is none.
fn superblock_near(superblocks: &[u32], byte: u8, j: usize, near: usize) -> usize
    requires { (256 ≤ length superblocks.now) × (get_or superblocks.now (0 * 256 + byte) 0 ≤ j) }
    ensures { LastRow superblocks.now byte j 0 (length superblocks.now / 256) result }
{
    let rows = superblocks.len() / 256;
    if rows <= near || j < number_at(superblocks, near, byte) {
        return last_row(superblocks, byte, j, 0, rows, 1);
    }
    let end = row_ahead(superblocks, byte, j, near, rows);
    last_row(superblocks, byte, j, near, end, 1)
}

// The block in which an occurrence lies, if there is one: its start and its end, how many others are
// left to pass in it, and the superblock row in which it was found.
#[derive(Clone, Copy)]
struct Held {
    start: usize,
    stop: usize,
    rest: usize,
    superblock: usize,
}

// An occurrence of a byte: its position, and the superblock row in which it was found.
#[derive(Clone, Copy)]
pub struct Occurrence {
    pub at: usize,
    pub superblock: usize,
}

// The start of the piece of 64 bytes of a part in which the occurrence of a byte lies that has so many
// others before it; the last piece may be shorter.
fn piece_in(part: &[u8], byte: u8, rest: usize) -> usize
    requires { rest < count_of byte part.now }
    ensures { (result ≤ nth_of byte rest part.now) × (nth_of byte rest part.now < result + 64) }
{
    let mut left = rest;
    let mut i = 0;
    while 64 < part.len() - i {
        let stop = i + 64;
        let found = usize::from(count_few(&part[i..stop], byte));
        if left < found {
            return i;
        }
        left -= found;
        i = stop;
    }
    i
}

// A piece of the bytes, from a position to before another, and the superblock row in which it was
// found.
#[derive(Clone, Copy)]
pub struct Span {
    pub from: usize,
    pub to: usize,
    pub superblock: usize,
}

impl CountedBytes<'_> {
    // How often a byte stands in the first i bytes: two numbers of the directory, and a count in less
    // than a block.
    pub fn count_below(&self, byte: u8, i: usize) -> usize
        requires { i ≤ length self.now.bytes.now }
        ensures { result ≡ count_of byte (take i self.now.bytes.now) }
    {
        let row = i / self.block;
        let start = row * self.block;
        let above = number_at(self.superblocks, row / self.per, byte);
        let within = number_at(self.blocks, row, byte);
        above + within + count_in(&self.bytes[start..i], byte)
    }

    // The block of the occurrence of a byte that has j others before it, the last block where there is
    // none: a search in the superblock rows, which begins near a row, and one in the superblock's block
    // rows.
    fn block_with(&self, byte: u8, j: usize, near: usize) -> Held
        ensures { BlockWith byte j self.now.bytes.now result }
    {
        let superblock = superblock_near(self.superblocks, byte, j, near);
        let left = j - number_at(self.superblocks, superblock, byte);
        let first = superblock * self.per;
        let end = (first + self.per).min(self.blocks.len() / 256);
        let row = last_row(self.blocks, byte, left, first, end, 8);
        let rest = left - number_at(self.blocks, row, byte);
        let start = row * self.block;
        let stop = (start + self.block).min(self.bytes.len());
        Held {
            start,
            stop,
            rest,
            superblock,
        }
    }

    // The occurrence of a byte that has j others before it, at the number of bytes where there is none:
    // the search of its block, and the scan of that. Its position is the same whatever the row near
    // which it is sought.
    pub fn nth(&self, byte: u8, j: usize, near: usize) -> Occurrence
        ensures { result.at ≡ nth_of byte j self.now.bytes.now }
    {
        let held = self.block_with(byte, j, near);
        let start = held.start;
        let stop = held.stop;
        let scanned = block_scan::scan(&self.bytes[start..stop], byte, held.rest);
        let at = start + block_scan::position_of(scanned.stands, stop - start);
        Occurrence {
            at,
            superblock: held.superblock,
        }
    }

    // The piece of at most 64 bytes in which the occurrence of a byte that has j others before it lies:
    // the search of its block, and counts in the block's pieces. Its place is not looked for.
    pub fn piece_of(&self, byte: u8, j: usize, near: usize) -> Span
        requires { j < count_of byte self.now.bytes.now }
        ensures { (result.from ≤ nth_of byte j self.now.bytes.now) × (nth_of byte j self.now.bytes.now < result.to) × (result.to ≤ result.from + 64) × (result.to ≤ length self.now.bytes.now) }
    {
        let held = self.block_with(byte, j, near);
        let start = held.start;
        let stop = held.stop;
        let from = start + piece_in(&self.bytes[start..stop], byte, held.rest);
        let to = (from + 64).min(stop);
        Span {
            from,
            to,
            superblock: held.superblock,
        }
    }

    // The occurrence of a byte that has j others before it, where j stand before a position, at the
    // number of bytes where there is none: read on from there, and after 512 bytes without it sought in
    // the directory.
    pub fn nth_from(&self, byte: u8, j: usize, from: usize, near: usize) -> Occurrence
        requires { (from ≤ length self.now.bytes.now) × (count_of byte (take from self.now.bytes.now) ≡ j) }
        ensures { result.at ≡ nth_of byte j self.now.bytes.now }
    {
        let stop = (from + 512).min(self.bytes.len());
        let ahead = pairs::next_of(&self.bytes[from..stop], byte);
        if ahead < stop - from {
            return Occurrence {
                at: from + ahead,
                superblock: near,
            };
        }
        self.nth(byte, j, near)
    }
}
