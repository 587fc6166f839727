// The calls that leave the state as it is, each with what came of it printed.
use crate::state::State;
use given::Numbers;
use index::Shape;
use measuring::IndexSizes;
use questions::Question;
use small_indexes::shape_of;
use std::io;

// The most elements of a slice that is filled and printed.
const MOST_SHOWN: usize = 20;

// The most elements of another array of an index that is built in slices.
const MOST_BUILT: usize = 768;

// Asks a question of the index and the lent words, with the document starts where calls bring them.
pub fn ask(rt: &impl Print, state: &State, question: Question) -> io::Result<()> {
    let answer = match state.starts() {
        Some(starts) => state
            .small
            .ask_in_documents(starts, state.words.as_slice(), question),
        None => state.small.ask(state.words.as_slice(), question),
    };
    printing::answered(rt, answer)
}

// A question with every field given.
pub fn any_question(numbers: &Numbers) -> Question {
    Question {
        kind: given::narrow(numbers.at(0)),
        w: given::narrow(numbers.at(1)),
        v: given::narrow(numbers.at(2)),
        d: numbers.offset(3),
        p: numbers.at(4),
        start: numbers.at(5),
        length: numbers.at(6),
    }
}

// Counts a phrase in each document into so many elements, at most 20.
pub fn summary(rt: &impl Print, state: &State, numbers: &Numbers) -> io::Result<()> {
    let mut counts = [9u32; MOST_SHOWN];
    let counts = &mut counts[..numbers.at(2).min(MOST_SHOWN)];
    let answer = state.small.summary(
        state.documents.as_slice(),
        state.words.as_slice(),
        numbers.at(0),
        numbers.at(1),
        counts,
    );
    printing::answered_with_ranks(rt, answer, counts)
}

// Reads a passage of so many words, at most 20.
pub fn quote(rt: &impl Print, state: &State, numbers: &Numbers) -> io::Result<()> {
    let mut ranks = [7u32; MOST_SHOWN];
    let ranks = &mut ranks[..numbers.at(1).min(MOST_SHOWN)];
    let answer = state.small.passage(numbers.at(0), ranks);
    printing::answered_with_ranks(rt, answer, ranks)
}

// Measures a text.
pub fn needs(rt: &impl Print, numbers: &Numbers) -> io::Result<()> {
    let text = numbers.ranks(3);
    let shape = shape_of(numbers.at(0), numbers.at(1), numbers.at(2));
    let measured = measuring::measure(shape, text.as_slice());
    let IndexSizes {
        nodes,
        bytes,
        superblock_rows,
        block_rows,
    } = measured.sizes;
    printing::answered(rt, measured.answer)?;
    print!(rt; "; {nodes} {bytes} {superblock_rows} {block_rows}")
}

// Builds the index of a text in slices of the sizes that the first four numbers of a line give, at most
// 768 elements and 20 bytes, which held nothing but 7; with four sizes that are handed back the lengths
// are printed too.
fn build(
    rt: &impl Print,
    numbers: &Numbers,
    shape: Shape,
    text: &[u32],
    sizes: Option<IndexSizes>,
) -> io::Result<()> {
    let mut lengths = [7u32; MOST_BUILT];
    let mut bytes = [7u8; MOST_SHOWN];
    let mut superblocks = [7u32; MOST_BUILT];
    let mut blocks = [7u16; MOST_BUILT];
    let lengths = &mut lengths[..numbers.at(0).min(MOST_BUILT)];
    let bytes = &mut bytes[..numbers.at(1).min(MOST_SHOWN)];
    let superblocks = &mut superblocks[..numbers.at(2).min(MOST_BUILT)];
    let blocks = &mut blocks[..numbers.at(3).min(MOST_BUILT)];
    let Some(sizes) = sizes else {
        let answer = building::build(shape, text, lengths, bytes, superblocks, blocks);
        return printing::answered_with_bytes(rt, answer, bytes);
    };
    let answer = building::build_sized(shape, sizes, text, lengths, bytes, superblocks, blocks);
    printing::answered_with_bytes(rt, answer, bytes)?;
    print!(rt; ";")?;
    printing::ranks(rt, lengths)
}

// Builds the index of a text in slices of these sizes.
pub fn room(rt: &impl Print, numbers: &Numbers) -> io::Result<()> {
    let shape = shape_of(numbers.at(4), numbers.at(5), numbers.at(6));
    build(rt, numbers, shape, numbers.ranks(7).as_slice(), None)
}

// Builds the index of a text in slices of these sizes, with four sizes that are handed back.
pub fn handed(rt: &impl Print, numbers: &Numbers) -> io::Result<()> {
    let sizes = IndexSizes {
        nodes: numbers.at(4),
        bytes: numbers.at(5),
        superblock_rows: numbers.at(6),
        block_rows: numbers.at(7),
    };
    let shape = shape_of(numbers.at(8), numbers.at(9), numbers.at(10));
    build(
        rt,
        numbers,
        shape,
        numbers.ranks(11).as_slice(),
        Some(sizes),
    )
}

// Writes a text as a stream of so many bytes, at most 20.
pub fn encode(rt: &impl Print, numbers: &Numbers) -> io::Result<()> {
    let text = numbers.ranks(2);
    let mut stream = [7u8; MOST_SHOWN];
    let stream = &mut stream[..numbers.at(0).min(MOST_SHOWN)];
    let answer = dense::write_stream(numbers.at(1), text.as_slice(), stream);
    printing::answered_with_bytes(rt, answer, stream)
}

// Reads a stream into so many ranks, at most 20.
pub fn decode(rt: &impl Print, numbers: &Numbers) -> io::Result<()> {
    let stream = numbers.bytes(1);
    let mut text = [7u32; MOST_SHOWN];
    let text = &mut text[..numbers.at(0).min(MOST_SHOWN)];
    let answer = dense::read_stream(stream.as_slice(), text);
    printing::answered_with_ranks(rt, answer, text)
}

// Reads the plain text of a line through the word list into so many ranks, at most 20.
pub fn text(rt: &impl Print, state: &State, line: &[u8], numbers: &Numbers) -> io::Result<()> {
    let text = given::spelled_by(line, 2);
    let mut ranks = [9u32; MOST_SHOWN];
    let ranks = &mut ranks[..numbers.at(0).min(MOST_SHOWN)];
    let answer = plain_text::read_text(state.list.as_slice(), text.as_slice(), ranks);
    printing::answered_with_ranks(rt, answer, ranks)
}

// Finds the word that a line spells in the word list.
pub fn known(rt: &impl Print, state: &State, line: &[u8]) -> io::Result<()> {
    let word = given::spelled_by(line, 1);
    let answer = finding::find_word(state.list.as_slice(), word.as_slice());
    printing::answered(rt, answer)
}
