// Lists streams at each limit and one past it. A case is a line with its name and the whole listing;
// of the longest listing its first line, its length, its Adler-32 checksum and its end are printed.
#![tactic(auto)]

use std::io;

// The remainder by which an Adler-32 checksum is taken.
const ADLER: u32 = 65521;

// The Adler-32 checksum of bytes.
fn checksum(bytes: &[u8]) -> u32 {
    let mut low: u32 = 1;
    let mut high: u32 = 0;
    for byte in bytes {
        low = (low + u32::from(*byte)) % ADLER;
        high = (high + low) % ADLER;
    }
    high * 65536 + low
}

// Prints the whole listing of a stream under a name.
fn show(rt: &impl Print, name: &str, stream: &[u8]) -> io::Result<()> {
    let mut output = [0u8; node_listing::MAX_LISTING];
    let answer = node_listing::write_listing(stream, &mut output);
    let count = answer.value;
    print!(rt; "{name}\n")?;
    printing::words(rt, &output[..count])
}

// Prints of the listing of a stream, under a name, the first line, the length, the checksum and the
// last 40 bytes.
fn show_ends(rt: &impl Print, name: &str, stream: &[u8]) -> io::Result<()> {
    let mut output = [0u8; node_listing::MAX_LISTING];
    let answer = node_listing::write_listing(stream, &mut output);
    let count = answer.value;
    print!(rt; "{name}\n")?;
    print_ends(rt, &output[..count])
}

// Prints the first line of a listing, its length, its checksum and its last 40 bytes.
fn print_ends(rt: &impl Print, listing: &[u8]) -> io::Result<()> {
    let line = listing.split_inclusive(|byte| *byte == b'\n').next();
    let length = listing.len();
    let checksum = checksum(listing);
    printing::words(rt, line.unwrap_or(&[]))?;
    print!(rt; "length {length} checksum {checksum}, its end:\n")?;
    match listing.last_chunk::<40>() {
        Some(end) => printing::words(rt, end),
        None => Ok(()),
    }
}

// Prints what is answered for a lent slice, and the slice, whose elements were all 7.
fn lend(rt: &impl Print, name: &str, stream: &[u8], output: &mut [u8]) -> io::Result<()> {
    let answer = node_listing::write_listing(stream, output);
    print!(rt; "{name}")?;
    printing::answered_with_bytes(rt, answer, output)?;
    print!(rt; "\n")
}

// Fills a slice with words of one byte: ranks 0 to 127 over and over.
fn fill_ones(stream: &mut [u8]) {
    for (i, byte) in stream.iter_mut().enumerate() {
        *byte = 128 + (i % 128) as u8;
    }
}

// Fills a slice with words of two bytes; a last byte that is left over stays.
fn fill_twos(stream: &mut [u8]) {
    for i in 0..stream.len() / 2 {
        let turn = i % 4096 * 31;
        stream[2 * i] = (turn % 128) as u8;
        stream[2 * i + 1] = 128 + ((turn / 128 + i % 128) % 128) as u8;
    }
}

// Fills a slice with words of two bytes that are equal but for the bit that closes a word.
fn fill_pairs(stream: &mut [u8]) {
    for i in 0..stream.len() / 2 {
        stream[2 * i] = (i % 128) as u8;
        stream[2 * i + 1] = 128 + (i % 128) as u8;
    }
}

// Every byte value: words of two bytes, and then words of one.
fn every_value() -> [u8; 384] {
    let mut values = [0u8; 384];
    fill_pairs(&mut values[..256]);
    fill_ones(&mut values[256..]);
    values
}

// Streams of few words, and every byte value.
fn short_cases(rt: &impl Print) -> io::Result<()> {
    show(rt, "the sample", &[128, 0, 128, 128, 0, 129, 0, 128])?;
    show(rt, "no byte", &[])?;
    show(rt, "one word", &[128])?;
    show(rt, "rank 127", &[255])?;
    show(rt, "rank 128", &[0, 128])?;
    show(rt, "rank 255", &[0, 255])?;
    show(rt, "rank 256", &[1, 128])?;
    show(rt, "rank 16511, V 16512", &[127, 255])?;
    show(rt, "rank 16512, V 16513", &[0, 0, 128])?;
    show(rt, "rank 2113663", &[127, 127, 255])?;
    show(rt, "every byte value", &every_value())
}

// Broken streams.
fn broken_cases(rt: &impl Print) -> io::Result<()> {
    show(rt, "ends inside a codeword, after one byte", &[128, 0])?;
    show(rt, "ends inside a codeword, after two bytes", &[128, 0, 0])?;
    show(rt, "a codeword of four bytes", &[0, 0, 0, 128])?;
    show(rt, "rank 16512, then inside a codeword", &[0, 0, 128, 0])?;
    show(rt, "8192 bytes, none of which closes a word", &[0; 8192])
}

// Streams of 4,096 words and one more, of one byte each.
fn word_cases(rt: &impl Print) -> io::Result<()> {
    let mut most = [0u8; 4096];
    let mut more = [0u8; 4097];
    let mut inside = [0u8; 4098];
    fill_ones(&mut most);
    fill_ones(&mut more);
    fill_ones(&mut inside);
    inside[4097] = 0;
    show(rt, "4096 words of one byte", &most)?;
    show(rt, "4097 words of one byte", &more)?;
    show(rt, "4097 words, then inside a codeword", &inside)
}

// Streams of 8,192 bytes and one more.
fn byte_cases(rt: &impl Print) -> io::Result<()> {
    let mut most = [0u8; 8192];
    let mut more = [0u8; 8193];
    fill_twos(&mut most);
    fill_twos(&mut more);
    show_ends(rt, "4096 words of two bytes", &most)?;
    show(rt, "8193 bytes, broken", &more)?;
    more[8192] = 128;
    show(rt, "8193 bytes", &more)
}

// Slices one byte longer than the listing, as long, and one byte shorter.
fn slice_cases(rt: &impl Print) -> io::Result<()> {
    let mut longer = [7u8; 12];
    let mut equal = [7u8; 11];
    let mut shorter = [7u8; 10];
    lend(rt, "a slice one byte longer", &[0], &mut longer)?;
    lend(rt, "a slice as long", &[0], &mut equal)?;
    lend(rt, "a slice one byte short", &[0], &mut shorter)
}

fn main(rt: HostRuntime) -> io::Result<()> {
    short_cases(&rt)?;
    broken_cases(&rt)?;
    word_cases(&rt)?;
    byte_cases(&rt)?;
    slice_cases(&rt)
}
