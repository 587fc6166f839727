// Runs cases, one a line of standard input, and prints each line with what came of it. What a line
// begins with says which call it is, and the numbers behind it, each after a blank, what is given:
// decimal, or hexadecimal behind an x.
//
//     # ..                       nothing: the line is printed
//     encode SIZE V R..          writes a text as a stream into a slice of so many bytes
//     decode SIZE B..            reads a stream into a slice of so many ranks
//     needs V B b R..            measures a text: the sizes of its index stand behind the answer
//     room N L U K V B b R..     builds the index of a text in slices of these sizes
//     handed N L U K n l u k V B b R..   builds it in slices of these sizes, with the sizes n l u k
//                                handed back; behind the bytes stand the lengths
//     build V B b R..            builds it in arrays with room, of which the calls below are lent parts
//     sizes N L U K              how many elements of each array are lent
//     values V B b               the V, B and b that are given
//     modify ARRAY I X           element I of array 0, 1, 2 or 3 becomes X
//     check                      checks the index
//     words R..                  the words that are lent for phrases
//     1 P / 2 W P / 3 W P / 4 W V D / 5 START LENGTH     a question by the maker of its kind
//     ask KIND W V D P START LENGTH                      a question with every field given
//     group S..                  the document starts that questions and pages bring from here on
//     join                       they bring none
//     yield START LENGTH SIZE    a summary of a phrase with these starts, in so many elements
//     quote P SIZE               a passage
//     open / open NEXT FINISHED  the state of a listing: the opening one, or any
//     page START LENGTH SIZE     a page of the listing
//     list BYTES                 the word list; \ and two hexadecimal digits stand for any byte
//     text SIZE BYTES            reads plain text through the list
//     known BYTES                finds a spelled word in the list
//     from LIST RANKS BYTES      makes a word list of plain text, in slices of so many bytes and ranks
//     iterate LIST RANKS SIZE BYTES   makes one of so many bytes: those given, over and over again
//     unique LIST RANKS COUNT    makes one of so many words that stand once each
//
// Slices that are filled held nothing but 7 before, those of lines, of counts, of word lists and of
// ranks read from plain text nothing but 9. Of a word list that is made and of its ranks the first 20
// elements are printed.
#![tactic(auto)]

mod command;
mod lists;
mod shown;
mod state;

use command::Command;
use given::{Lines, Numbers};
use questions::Question;
use state::State;
use std::io;

// The most bytes of the input; what goes past them is left out.
const MOST_INPUT: usize = 65536;

// Does what a line asks for.
fn obey(
    rt: &impl Print,
    state: &mut State,
    command: Command,
    line: &[u8],
    numbers: &Numbers,
) -> io::Result<()> {
    let x = numbers.at(0);
    let y = numbers.at(1);
    let w = given::narrow(x);
    let v = given::narrow(y);
    match command {
        Command::Encode => shown::encode(rt, numbers)?,
        Command::Decode => shown::decode(rt, numbers)?,
        Command::Needs => shown::needs(rt, numbers)?,
        Command::Room => shown::room(rt, numbers)?,
        Command::Handed => shown::handed(rt, numbers)?,
        Command::Build => state.build(rt, numbers)?,
        Command::Sizes => state.size(numbers),
        Command::Values => state.reshape(numbers),
        Command::Modify => state.modify(numbers),
        Command::Check => printing::answered(rt, state.small.check())?,
        Command::Words => state.lend(numbers),
        Command::WordAt => shown::ask(rt, state, Question::word_at(x))?,
        Command::OccurrencesBelow => shown::ask(rt, state, Question::occurrences_below(w, y))?,
        Command::PlaceOf => shown::ask(rt, state, Question::place_of(w, y))?,
        Command::Neighbours => {
            shown::ask(rt, state, Question::neighbours(w, v, numbers.offset(2)))?
        }
        Command::Phrase => shown::ask(rt, state, Question::phrase(x, y))?,
        Command::Ask => shown::ask(rt, state, shown::any_question(numbers))?,
        Command::Group => state.group(numbers),
        Command::Join => state.join(),
        Command::Yield => shown::summary(rt, state, numbers)?,
        Command::Quote => shown::quote(rt, state, numbers)?,
        Command::Open => state.open(numbers),
        Command::Page => state.turn(rt, numbers)?,
        Command::List => state.take_list(line),
        Command::Text => shown::text(rt, state, line, numbers)?,
        Command::Known => shown::known(rt, state, line)?,
        Command::From => lists::from(rt, line, numbers)?,
        Command::Iterate => lists::iterate(rt, line, numbers)?,
        Command::Unique => lists::unique(rt, numbers)?,
    }
    Ok(())
}

// Runs the case of a line.
fn run_line(rt: &impl Print, state: &mut State, line: &[u8]) -> io::Result<()> {
    let numbers = given::numbers_of(line);
    printing::words(rt, line)?;
    if let Some(command) = Command::of(line) {
        obey(rt, state, command, line, &numbers)?;
    }
    print!(rt; "\n")
}

// Runs the cases of all lines, each over the state that the one before it left.
fn run(rt: &impl Print, input: &[u8]) -> io::Result<()> {
    let mut state = State::first();
    for line in Lines::of(input) {
        run_line(rt, &mut state, line)?;
    }
    Ok(())
}

fn main(rt: HostRuntime) -> io::Result<()> {
    let mut input = [0u8; MOST_INPUT];
    let size = reading::read_full(&mut rt.reader(), &mut input)?;
    run(&rt, &input[..size])
}
