// Characters written into a lent slice: fixed words, numbers in decimal, bytes in hexadecimal.
//
// Each function writes from a position of the slice on and returns the position after what it
// wrote; the rest of the slice stays. They require that the slice has room, and are no entries.
#![tactic(auto)]

ghost use Rattle.std.specs.Prelude.{◌≡◌, ◌+◌, ◌*◌, ◌<◌, ◌≤◌, length};
ghost use Rattle.formatting.specs.Characters.{digit_of, decimal, labelled, byte_text, bytes_text};
ghost use Rattle.formatting.specs.Writing.{Wrote};

// The digit of a number below 16: 0 to 9, A to F.
pub fn digit(n: usize) -> u8
    requires { n < 16 }
    ensures { result ≡ digit_of n }
{
    if n < 10 { 48 + n as u8 } else { 55 + n as u8 }
}

// Writes fixed words.
pub fn write_words(words: &[u8], output: &mut [u8], at: usize) -> usize
    requires { at + length words.now ≤ length output.old }
    ensures { Wrote words.now at output.old result output.new }
{
    let end = at + words.len();
    output[at..end].copy_from_slice(words);
    end
}

// Writes a number in decimal.
pub fn write_decimal(n: usize, output: &mut [u8], at: usize) -> usize
    requires { at + length (decimal n) ≤ length output.old }
    ensures { Wrote (decimal n) at output.old result output.new }
{
    let mut digits = [0u8; 20];
    let count = io::decimal(n as u64, &mut digits);
    write_words(&digits[..count], output, at)
}

// Writes fixed words and then a number in decimal.
pub fn write_labelled(label: &[u8], n: usize, output: &mut [u8], at: usize) -> usize
    requires { at + length (labelled label.now n) ≤ length output.old }
    ensures { Wrote (labelled label.now n) at output.old result output.new }
{
    let next = write_words(label, output, at);
    write_decimal(n, output, next)
}

// Writes a blank and the two hexadecimal digits of a byte.
pub fn write_byte(byte: u8, output: &mut [u8], at: usize) -> usize
    requires { at + 3 ≤ length output.old }
    ensures { Wrote (byte_text byte) at output.old result output.new }
{
    let value = usize::from(byte);
    output[at] = b' ';
    output[at + 1] = digit(value / 16);
    output[at + 2] = digit(value % 16);
    at + 3
}

// Writes each byte so.
pub fn write_bytes(bytes: &[u8], output: &mut [u8], at: usize) -> usize
    requires { at + 3 * length bytes.now ≤ length output.old }
    ensures { Wrote (bytes_text bytes.now) at output.old result output.new }
{
    let mut next = at;
    for byte in bytes {
        next = write_byte(*byte, output, next);
    }
    next
}
