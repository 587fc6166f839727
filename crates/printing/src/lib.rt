// What the programs print of answers, bytes and ranks, to standard output. Each function is given the
// handle that prints, and answers the error of a write that failed.
#![tactic(auto)]

use base::Answer;
use std::io;

// Writes bytes as they stand.
pub fn words(rt: &impl Print, text: &[u8]) -> io::Result<()> {
    rt.write_all(text)
}

// Writes a number in decimal.
pub fn number(rt: &impl Print, n: usize) -> io::Result<()> {
    print!(rt; "{n}")
}

// Writes four numbers in decimal, a blank between.
pub fn four_numbers(rt: &impl Print, a: usize, b: usize, c: usize, d: usize) -> io::Result<()> {
    print!(rt; "{a} {b} {c} {d}")
}

// Bytes and ranks have a function each: what is written of an element is all that the functions do.

// Writes each byte as a blank and two hexadecimal digits.
pub fn bytes(rt: &impl Print, s: &[u8]) -> io::Result<()> {
    for byte in s {
        let mut text = [0u8; 3];
        formatting::write_byte(*byte, &mut text, 0);
        rt.write_all(&text)?;
    }
    Ok(())
}

// Writes each rank as a blank and the number in decimal.
pub fn ranks(rt: &impl Print, list: &[u32]) -> io::Result<()> {
    for rank in list {
        print!(rt; " {rank}")?;
    }
    Ok(())
}

// Writes an answer: the value of an accepted call, or the refusal and what is returned with it.
pub fn answer(rt: &impl Print, a: Answer) -> io::Result<()> {
    let Answer { refusal, value } = a;
    if refusal == 0 {
        print!(rt; "accepted {value}")
    } else {
        print!(rt; "refused {refusal} with {value}")
    }
}

// Writes an answer behind what was asked.
pub fn answered(rt: &impl Print, a: Answer) -> io::Result<()> {
    print!(rt; ": ")?;
    answer(rt, a)
}

// Writes an answer behind what was asked, and what a slice of bytes holds then.
pub fn answered_with_bytes(rt: &impl Print, a: Answer, s: &[u8]) -> io::Result<()> {
    answered(rt, a)?;
    print!(rt; ":")?;
    bytes(rt, s)
}

// Writes an answer behind what was asked, and what a slice of ranks holds then.
pub fn answered_with_ranks(rt: &impl Print, a: Answer, s: &[u32]) -> io::Result<()> {
    answered(rt, a)?;
    print!(rt; ":")?;
    ranks(rt, s)
}

// Writes what came of making a word list behind what was asked: the answer, how many bytes and ranks
// were written, and what the two slices hold then.
pub fn answered_with_list(
    rt: &impl Print,
    a: Answer,
    size: usize,
    count: usize,
    list: &[u8],
    text: &[u32],
) -> io::Result<()> {
    answered(rt, a)?;
    print!(rt; ", bytes {size}, words {count}:")?;
    bytes(rt, list)?;
    print!(rt; ";")?;
    ranks(rt, text)
}
