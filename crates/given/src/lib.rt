// What a line of the programs that run cases gives: its numbers, and bytes that are spelled out.
#![tactic(auto)]

ghost use Rattle.std.specs.Prelude.{◌≤◌, length};
ghost use Rattle.std.specs.Iterator.{at_most};

// The most numbers of a line.
pub const MOST: usize = 32;

// The most bytes that a line spells out.
const MOST_BYTES: usize = 64;

// The value of a hexadecimal digit.
fn digit(byte: u8) -> Option<u8> {
    match byte {
        b'0'..=b'9' => Some(byte - b'0'),
        b'A'..=b'F' => Some(byte - b'A' + 10),
        _ => None,
    }
}

// A number with a digit more. It stays where the digit is none of its base, or the number would have
// more than 64 bits.
fn with_digit(value: usize, base: usize, digit: usize) -> usize {
    if base <= digit {
        return value;
    }
    value
        .checked_mul(base)
        .and_then(|tens| tens.checked_add(digit))
        .unwrap_or(value)
}

// The number that bytes spell. Each blank in them begins decimal digits, and each x hexadecimal ones.
fn number_of(bytes: &[u8]) -> usize {
    let mut value = 0;
    let mut base = 10;
    for byte in bytes {
        match byte {
            b' ' => base = 10,
            b'x' => base = 16,
            _ => {
                if let Some(digit) = digit(*byte) {
                    value = with_digit(value, base, usize::from(digit));
                }
            }
        }
    }
    value
}

// A number as 32 bits.
pub fn narrow(n: usize) -> u32 {
    (n % 4294967296) as u32
}

// A number as a byte.
pub fn low_byte(n: usize) -> u8 {
    (n % 256) as u8
}

// The numbers of a line in their order, how many there are, and whether one is negative. A number past
// the most there is room for gives its digits to the last; digits past 64 bits are left out.
#[derive(Clone, Copy)]
pub struct Numbers {
    pub values: [usize; MOST],
    pub count: usize,
    pub negative: bool,
}

impl Numbers {
    // The numbers of a line, each behind a blank.
    pub fn of(line: &[u8]) -> Numbers {
        let mut all = Numbers {
            values: [0; MOST],
            count: 0,
            negative: line.contains(&b'-'),
        };
        for bytes in line.splitn(MOST + 1, |byte| *byte == b' ').skip(1) {
            all.push(number_of(bytes));
        }
        all
    }

    // Puts a number behind the others, where there is room.
    fn push(&mut self, number: usize) {
        if let Some(place) = self.values.get_mut(self.count) {
            *place = number;
            self.count += 1;
        }
    }

    // The numbers in their order.
    pub fn values(&self) -> &[usize] {
        self.values.get(..self.count).unwrap_or(&[])
    }

    // Number i, from 0 on; 0 where there is none.
    pub fn at(&self, i: usize) -> usize {
        self.values.get(i).copied().unwrap_or(0)
    }

    // Number i as an offset: negative where one of the line is; then the least, or one of at
    // most 255 to the left.
    pub fn offset(&self, i: usize) -> i32 {
        let size = self.at(i);
        if !self.negative {
            return i32::try_from(size).unwrap_or(0);
        }
        if size == 2147483648 {
            return i32::MIN;
        }
        -i32::from(low_byte(size))
    }

    // The numbers from index `from` on as ranks.
    pub fn ranks(&self, from: usize) -> Ranks {
        let mut all = Ranks::none();
        for number in self.values().iter().skip(from) {
            all.push(narrow(*number));
        }
        all
    }

    // The numbers from index `from` on as bytes.
    pub fn bytes(&self, from: usize) -> Spelled {
        let mut all = Spelled::none();
        for number in self.values().iter().skip(from) {
            all.push(low_byte(*number));
        }
        all
    }
}

// The numbers of a line, each behind a blank.
pub fn numbers_of(line: &[u8]) -> Numbers {
    Numbers::of(line)
}

// Ranks, and how many there are.
#[derive(Clone, Copy)]
pub struct Ranks {
    pub values: [u32; MOST],
    pub count: usize,
}

impl Ranks {
    // No ranks.
    pub fn none() -> Ranks {
        Ranks {
            values: [0; MOST],
            count: 0,
        }
    }

    // Puts a rank behind the others, where there is room.
    fn push(&mut self, rank: u32) {
        if let Some(place) = self.values.get_mut(self.count) {
            *place = rank;
            self.count += 1;
        }
    }

    // The ranks in their order.
    pub fn as_slice(&self) -> &[u32] {
        self.values.get(..self.count).unwrap_or(&[])
    }
}

// The numbers from index `from` on as ranks.
pub fn ranks_of(numbers: Numbers, from: usize) -> Ranks {
    numbers.ranks(from)
}

// Bytes that a line gives, and how many there are. Those past the most there is room for are left out.
#[derive(Clone, Copy)]
pub struct Spelled {
    pub bytes: [u8; MOST_BYTES],
    pub count: usize,
}

impl Spelled {
    // No bytes.
    pub fn none() -> Spelled {
        Spelled {
            bytes: [0; MOST_BYTES],
            count: 0,
        }
    }

    // Puts a byte behind the others, where there is room.
    fn push(&mut self, byte: u8) {
        if let Some(place) = self.bytes.get_mut(self.count) {
            *place = byte;
            self.count += 1;
        }
    }

    // The bytes in their order.
    pub fn as_slice(&self) -> &[u8] {
        self.bytes.get(..self.count).unwrap_or(&[])
    }
}

// The numbers from index `from` on as bytes.
pub fn bytes_of(numbers: Numbers, from: usize) -> Spelled {
    numbers.bytes(from)
}

// The value of a byte as a digit; 0 where it is none.
fn digit_or_zero(byte: u8) -> u8 {
    digit(byte).unwrap_or(0)
}

// What is left of bytes that are spelled out: after \ two hexadecimal digits make one, and a \ without
// two bytes behind it ends them.
#[derive(Drop)]
struct Spelling<'a>(&'a [u8]);

impl<'a> Iterator for Spelling<'a> {
    type Item = u8;

    ghost remaining = { λ s. at_most (length s.0.now) };

    fn next(&mut self) -> Option<u8> {
        match self.0 {
            [b'\\', high, low, rest @ ..] => {
                self.0 = rest;
                Some(digit_or_zero(*high) << 4 | digit_or_zero(*low))
            }
            [] | [b'\\', ..] => None,
            [byte, rest @ ..] => {
                self.0 = rest;
                Some(*byte)
            }
        }
    }
}

// The bytes that a line spells out behind its blank with this number.
pub fn spelled_by(line: &[u8], blanks: usize) -> Spelled {
    let parts = blanks.saturating_add(1);
    let bytes = line.splitn(parts, |byte| *byte == b' ').nth(blanks);
    let mut all = Spelled::none();
    for byte in Spelling(bytes.unwrap_or(&[])) {
        all.push(byte);
    }
    all
}

// Where the line ends that begins at a position: at the next 0A, or at the end of the input.
pub fn line_end(input: &[u8], from: usize) -> usize
    requires { from ≤ length input.now }
    ensures { (from ≤ result) × (result ≤ length input.now) }
{
    let rest = &input[from..];
    match rest.iter().position(|byte| *byte == b'\n') {
        Some(length) => from + length,
        None => input.len(),
    }
}

// What is left of an input, as its lines in their order, each without the 0A that ends it.
#[derive(Drop)]
pub struct Lines<'a>(&'a [u8]);

impl<'a> Lines<'a> {
    // The lines of an input.
    pub fn of(input: &'a [u8]) -> Lines<'a> {
        Lines(input)
    }
}

impl<'a> Iterator for Lines<'a> {
    type Item = &'a [u8];

    ghost remaining = { λ s. at_most (length s.0.now) };

    fn next(&mut self) -> Option<&'a [u8]> {
        if self.0.is_empty() {
            return None;
        }
        let (line, rest) = self.0.split_at(line_end(self.0, 0));
        self.0 = rest.split_first().map_or(rest, |(_, others)| others);
        Some(line)
    }
}
