// Reads a stream of the published code from standard input and prints its nodes, or the refusal.
// Of a stream that is too long one byte past the limit is read, which is enough to refuse it.
#![tactic(auto)]

use std::io;

// The most bytes that are read.
const MOST_INPUT: usize = 8193;

fn main(rt: HostRuntime) -> io::Result<()> {
    let mut stream = [0u8; MOST_INPUT];
    let mut output = [0u8; node_listing::MAX_LISTING];
    let read = reading::read_full(&mut rt.reader(), &mut stream)?;
    let answer = node_listing::write_listing(&stream[..read], &mut output);
    let count = answer.value;
    rt.write_all(&output[..count])
}
