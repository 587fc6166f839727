// The calls that make a word list of plain text.
use given::Numbers;
use std::io;

// The most bytes of a list or of a plain text, and the most words.
const MOST_BYTES: usize = 65537;

const MOST_WORDS: usize = 32768;

// The most words that stand once each.
const MOST_UNIQUE: usize = 13107;

// The most elements that are printed of a list and of its ranks.
const MOST_PRINTED: usize = 20;

// Makes a word list of a text in slices of so many bytes and ranks, as the first two numbers of the line
// say, and prints what came of it and the first 20 elements of each.
fn make(rt: &impl Print, text: &[u8], numbers: &Numbers) -> io::Result<()> {
    let size = numbers.at(0).min(MOST_BYTES);
    let count = numbers.at(1).min(MOST_WORDS);
    let mut list = [9u8; MOST_BYTES];
    let mut ranks = [9u32; MOST_WORDS];
    let made = list_making::make_list(text, &mut list[..size], &mut ranks[..count]);
    printing::answered_with_list(
        rt,
        made.answer,
        made.bytes,
        made.words,
        &list[..size.min(MOST_PRINTED)],
        &ranks[..count.min(MOST_PRINTED)],
    )
}

// Makes a word list of the plain text of a line.
pub fn from(rt: &impl Print, line: &[u8], numbers: &Numbers) -> io::Result<()> {
    make(rt, given::spelled_by(line, 3).as_slice(), numbers)
}

// Makes a word list of so many bytes, at most 65,537: those of a line, over and over again; where the
// line spells none, those of words that stand once each.
pub fn iterate(rt: &impl Print, line: &[u8], numbers: &Numbers) -> io::Result<()> {
    let some = given::spelled_by(line, 4);
    make_of_long(rt, some.as_slice(), numbers.at(2), numbers)
}

// Makes a word list of so many words, at most 13,107, that stand once each.
pub fn unique(rt: &impl Print, numbers: &Numbers) -> io::Result<()> {
    make_of_long(rt, &[], numbers.at(2).min(MOST_UNIQUE) * 5, numbers)
}

// Makes a word list of so many bytes, at most 65,537, of a long text.
fn make_of_long(rt: &impl Print, some: &[u8], size: usize, numbers: &Numbers) -> io::Result<()> {
    let mut text = [b' '; MOST_BYTES];
    let text = &mut text[..size.min(MOST_BYTES)];
    for (at, byte) in text.iter_mut().enumerate() {
        *byte = byte_of_long(some, at);
    }
    make(rt, text, numbers)
}

// The byte at a position of a long text: of some bytes over and over again; where there are none, of
// words that stand once each.
fn byte_of_long(some: &[u8], at: usize) -> u8 {
    if some.is_empty() {
        return byte_of_unique(at);
    }
    some[at % some.len()]
}

// One of sixteen letters.
fn letter(n: usize) -> u8 {
    b'a' + (n % 16) as u8
}

// The byte at a position of a text in which 65,536 words of four letters stand once each.
fn byte_of_unique(at: usize) -> u8 {
    let word = at / 5;
    match at % 5 {
        0 => letter(word / 4096),
        1 => letter(word / 256),
        2 => letter(word / 16),
        3 => letter(word),
        _ => b' ',
    }
}
