// Runs cases of the calls that are lent a letter table, one a line of standard input, and prints each
// line with what came of it. What a line begins with says which call it is, and the numbers behind
// it, each after a blank, what is given: decimal, or hexadecimal behind an x.
//
//     # ..                       nothing: the line is printed
//     built                      the table becomes the built-in one, with a 0 behind its 256 entries
//     zeros                      the table becomes 257 zeros
//     modify I X                 entry I of the table becomes X
//     check N                    checks the first N entries of the table
//     list BYTES                 the word list; \ and two hexadecimal digits stand for any byte
//     text N SIZE BYTES          reads plain text through the list with the first N entries, into a
//                                slice of so many ranks
//     known N BYTES              finds a spelled word in the list with the first N entries
//     from N LIST RANKS BYTES    makes a word list of plain text with the first N entries, in slices of
//                                so many bytes and ranks
//
// Slices that are filled held nothing but 9 before, and have at most 20 elements.
#![tactic(auto)]

use given::{Lines, Numbers, Spelled};
use std::io;

// The most entries of a table: one more than it must have.
const MOST_ENTRIES: usize = 257;

// The most elements of a slice that is filled.
const MOST_FILLED: usize = 20;

// The most bytes of the input; what goes past them is left out.
const MOST_INPUT: usize = 16384;

// The call or the change that a line asks for.
#[derive(Clone, Copy)]
enum Command {
    BuiltIn,
    Zeros,
    Modify,
    Check,
    List,
    Text,
    Known,
    From,
}

impl Command {
    // What a line asks for, by the character that it begins with; nothing where that is no command.
    fn of(line: &[u8]) -> Option<Command> {
        match line.first()? {
            b'b' => Some(Command::BuiltIn),
            b'z' => Some(Command::Zeros),
            b'm' => Some(Command::Modify),
            b'c' => Some(Command::Check),
            b'l' => Some(Command::List),
            b't' => Some(Command::Text),
            b'k' => Some(Command::Known),
            b'f' => Some(Command::From),
            _ => None,
        }
    }
}

// The table that calls are lent, and the word list.
#[derive(Clone, Copy)]
struct State {
    table: [u8; MOST_ENTRIES],
    list: Spelled,
}

// The built-in table, with a 0 behind its last entry.
fn built_in() -> [u8; MOST_ENTRIES] {
    let mut table = [0u8; MOST_ENTRIES];
    table[..256].copy_from_slice(&lexicon::letter_table());
    table
}

impl State {
    // The built-in table, and no list.
    fn first() -> State {
        State {
            table: built_in(),
            list: Spelled::none(),
        }
    }

    // The first entries of the table, as many as a number of the line says.
    fn entries(&self, numbers: &Numbers) -> &[u8] {
        let count = numbers.at(0).min(MOST_ENTRIES);
        &self.table[..count]
    }

    // Changes an entry of the table.
    fn modify(&mut self, numbers: &Numbers) {
        if let Some(entry) = self.table.get_mut(numbers.at(0)) {
            *entry = given::low_byte(numbers.at(1));
        }
    }

    // Takes another word list.
    fn take_list(&mut self, line: &[u8]) {
        self.list = given::spelled_by(line, 1);
    }
}

// Reads the plain text of a line with the front of the table through the word list into so many ranks,
// at most 20.
fn text(rt: &impl Print, state: &State, line: &[u8], numbers: &Numbers) -> io::Result<()> {
    let text = given::spelled_by(line, 3);
    let mut ranks = [9u32; MOST_FILLED];
    let ranks = &mut ranks[..numbers.at(1).min(MOST_FILLED)];
    let answer = lent_tables::read_text_with(
        state.entries(numbers),
        state.list.as_slice(),
        text.as_slice(),
        ranks,
    );
    printing::answered_with_ranks(rt, answer, ranks)
}

// Finds the word that a line spells in the word list with the front of the table.
fn known(rt: &impl Print, state: &State, line: &[u8], numbers: &Numbers) -> io::Result<()> {
    let word = given::spelled_by(line, 2);
    let answer = lent_tables::find_word_with(
        state.entries(numbers),
        state.list.as_slice(),
        word.as_slice(),
    );
    printing::answered(rt, answer)
}

// Makes a word list of the plain text of a line with the front of the table, in slices of so many bytes
// and ranks, at most 20.
fn from(rt: &impl Print, state: &State, line: &[u8], numbers: &Numbers) -> io::Result<()> {
    let text = given::spelled_by(line, 4);
    let mut list = [9u8; MOST_FILLED];
    let mut ranks = [9u32; MOST_FILLED];
    let list = &mut list[..numbers.at(1).min(MOST_FILLED)];
    let ranks = &mut ranks[..numbers.at(2).min(MOST_FILLED)];
    let made = lent_tables::make_list_with(state.entries(numbers), text.as_slice(), list, ranks);
    printing::answered_with_list(rt, made.answer, made.bytes, made.words, list, ranks)
}

// Does what a line asks for.
fn obey(
    rt: &impl Print,
    state: &mut State,
    command: Command,
    line: &[u8],
    numbers: &Numbers,
) -> io::Result<()> {
    match command {
        Command::BuiltIn => state.table = built_in(),
        Command::Zeros => state.table = [0; MOST_ENTRIES],
        Command::Modify => state.modify(numbers),
        Command::Check => printing::answered(rt, lexicon::check_table(state.entries(numbers)))?,
        Command::List => state.take_list(line),
        Command::Text => text(rt, state, line, numbers)?,
        Command::Known => known(rt, state, line, numbers)?,
        Command::From => from(rt, state, line, numbers)?,
    }
    Ok(())
}

// Runs the case of a line.
fn run_line(rt: &impl Print, state: &mut State, line: &[u8]) -> io::Result<()> {
    let numbers = given::numbers_of(line);
    printing::words(rt, line)?;
    if let Some(command) = Command::of(line) {
        obey(rt, state, command, line, &numbers)?;
    }
    print!(rt; "\n")
}

// Runs the cases of all lines, each over the state that the one before it left.
fn run(rt: &impl Print, input: &[u8]) -> io::Result<()> {
    let mut state = State::first();
    for line in Lines::of(input) {
        run_line(rt, &mut state, line)?;
    }
    Ok(())
}

fn main(rt: HostRuntime) -> io::Result<()> {
    let mut input = [0u8; MOST_INPUT];
    let size = reading::read_full(&mut rt.reader(), &mut input)?;
    run(&rt, &input[..size])
}
