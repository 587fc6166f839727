// Runs cases of the scan of a block, one a line of standard input, and prints each line with what came
// of it. What a line begins with says what it is, and the numbers behind it, each after a blank, what
// is given: decimal, or hexadecimal behind an x.
//
//     # ..                   nothing: the line is printed
//     block X N X N ..       the block becomes N bytes X, then N bytes X and so on
//     drawn N VALUES SEED    the block becomes N bytes drawn from so many values
//     scan X J               scans the block for the byte X that has J others before it
//     each X                 the same for each J from 0 to one more than there are
//
// A block has at most 2,048 bytes; what goes past them is left out.
#![tactic(auto)]

use given::{Lines, Numbers};
use std::io;

// The most bytes of a block.
const MOST_BYTES: usize = 2048;

// The most bytes of the input; what goes past them is left out.
const MOST_INPUT: usize = 32768;

// What a line asks for.
#[derive(Clone, Copy)]
enum Command {
    Block,
    Drawn,
    Scan,
    Each,
}

impl Command {
    // What a line asks for, by the character that it begins with; nothing where that is no command.
    fn of(line: &[u8]) -> Option<Command> {
        match line.first()? {
            b'b' => Some(Command::Block),
            b'd' => Some(Command::Drawn),
            b's' => Some(Command::Scan),
            b'e' => Some(Command::Each),
            _ => None,
        }
    }
}

// The block that is scanned: bytes, and how many there are.
#[derive(Clone, Copy)]
struct Block {
    bytes: [u8; MOST_BYTES],
    size: usize,
}

impl Block {
    // No bytes.
    fn empty() -> Block {
        Block {
            bytes: [0; MOST_BYTES],
            size: 0,
        }
    }

    // Puts a byte behind the others, where there is room.
    fn push(&mut self, byte: u8) {
        if let Some(place) = self.bytes.get_mut(self.size) {
            *place = byte;
            self.size += 1;
        }
    }

    // The bytes in their order.
    fn as_slice(&self) -> &[u8] {
        self.bytes.get(..self.size).unwrap_or(&[])
    }
}

// The block of the runs of a line: each pair of numbers is a byte, and how often it stands.
fn runs_of(numbers: &Numbers) -> Block {
    let mut block = Block::empty();
    for run in numbers.values().chunks_exact(2) {
        for _ in 0..run[1].min(MOST_BYTES) {
            block.push(given::low_byte(run[0]));
        }
    }
    block
}

// The state after another one, of which a byte is drawn.
fn drawn_after(state: usize) -> usize {
    state % 2147483648 * 1103515245 + 12345
}

// The byte below so many values, 1 to 256, that a state draws; 0 where there are no values.
fn byte_of(state: usize, values: usize) -> u8 {
    if values == 0 {
        return 0;
    }
    given::low_byte(state / 65536 % values)
}

// The block of so many bytes that are drawn from so many values.
fn drawn(count: usize, values: usize, seed: usize) -> Block {
    let mut block = Block::empty();
    let mut state = seed;
    for _ in 0..count.min(MOST_BYTES) {
        state = drawn_after(state);
        block.push(byte_of(state, values));
    }
    block
}

// Scans a block, and prints the position, or none, and the number of bytes read.
fn scan(rt: &impl Print, block: &[u8], byte: u8, j: usize) -> io::Result<()> {
    let scanned = block_scan::scan(block, byte, j);
    let read = scanned.read;
    match scanned.stands {
        Some(at) => print!(rt; ": at {at}, {read} read"),
        None => print!(rt; ": none, {read} read"),
    }
}

// Scans a block, and prints the position, or a dash, and the number of bytes read, shortly.
fn scan_shortly(rt: &impl Print, block: &[u8], byte: u8, j: usize) -> io::Result<()> {
    let scanned = block_scan::scan(block, byte, j);
    let read = scanned.read;
    match scanned.stands {
        Some(at) => print!(rt; " {at}/{read}"),
        None => print!(rt; " -/{read}"),
    }
}

// Scans a block for each occurrence of a byte, and for two more.
fn scan_each(rt: &impl Print, block: &[u8], byte: u8) -> io::Result<()> {
    let count = block.iter().filter(|other| **other == byte).count();
    print!(rt; ":")?;
    for j in 0..count.saturating_add(2) {
        scan_shortly(rt, block, byte, j)?;
    }
    Ok(())
}

// Does what a line asks for.
fn obey(rt: &impl Print, block: &mut Block, command: Command, numbers: &Numbers) -> io::Result<()> {
    let byte = given::low_byte(numbers.at(0));
    match command {
        Command::Block => *block = runs_of(numbers),
        Command::Drawn => *block = drawn(numbers.at(0), numbers.at(1), numbers.at(2)),
        Command::Scan => scan(rt, block.as_slice(), byte, numbers.at(1))?,
        Command::Each => scan_each(rt, block.as_slice(), byte)?,
    }
    Ok(())
}

// Runs the case of a line.
fn run_line(rt: &impl Print, block: &mut Block, line: &[u8]) -> io::Result<()> {
    let numbers = given::numbers_of(line);
    printing::words(rt, line)?;
    if let Some(command) = Command::of(line) {
        obey(rt, block, command, &numbers)?;
    }
    print!(rt; "\n")
}

// Runs the cases of all lines, each over the block that the one before it left.
fn run(rt: &impl Print, input: &[u8]) -> io::Result<()> {
    let mut block = Block::empty();
    for line in Lines::of(input) {
        run_line(rt, &mut block, line)?;
    }
    Ok(())
}

fn main(rt: HostRuntime) -> io::Result<()> {
    let mut input = [0u8; MOST_INPUT];
    let size = reading::read_full(&mut rt.reader(), &mut input)?;
    run(&rt, &input[..size])
}
