// The sheet of a new installation: each line says what is tried, what came of it, and in brackets
// what another result would mean.
#![tactic(auto)]

use base::Answer;
use listing::Listing;
use measuring::IndexSizes;
use questions::Question;
use small_indexes::{SmallIndex, shape_of};
use std::{fmt, io};

// The arrays of the text 0 128 0 129 128 with V 130, B 8 and b 1: the lengths of the nodes, the bytes
// of the nodes, and the block counters, all 0.
const LENGTHS: [u32; 2] = [5, 3];

const BYTES: [u8; 8] = [0x80, 0x00, 0x80, 0x00, 0x00, 0x80, 0x81, 0x80];

const BLOCKS: [u16; 512] = [0; 512];

// Their superblock counters: in the eight bytes, 00 stands three times, 80 four times and 81 once.
fn superblocks() -> [u32; 512] {
    let mut counters = [0; 512];
    counters[256] = 3;
    counters[384] = 4;
    counters[385] = 1;
    counters
}

// The value of an answer, or its refusal.
#[derive(Drop)]
struct Outcome(Answer);

impl fmt::Display for Outcome {
    fn fmt<W: fmt::Write>(&self, f: &mut fmt::Formatter<W>) -> fmt::Result {
        let Answer { refusal, value } = self.0;
        if refusal == 0 {
            write!(f, "{value}")
        } else {
            write!(f, "refused {refusal}")
        }
    }
}

// Whether a check passes, or its refusal.
#[derive(Drop)]
struct Checked(Answer);

impl fmt::Display for Checked {
    fn fmt<W: fmt::Write>(&self, f: &mut fmt::Formatter<W>) -> fmt::Result {
        let refusal = self.0.refusal;
        if refusal == 0 {
            write!(f, "passed")
        } else {
            write!(f, "refused {refusal}")
        }
    }
}

// What follows a page.
fn behind(more: bool) -> &'static str {
    if more { "and more" } else { "and the end" }
}

// Prints a line: what is tried, what came of it, and what another result would mean.
fn line(
    rt: &impl Print,
    tried: &str,
    came: impl fmt::Display + Drop,
    otherwise: &str,
) -> io::Result<()> {
    print!(rt; "{tried}: {came} ({otherwise})\n")
}

// Prints a line of which ranks, places or counts came.
fn line_of_ranks(rt: &impl Print, tried: &str, came: &[u32], otherwise: &str) -> io::Result<()> {
    print!(rt; "{tried}:")?;
    printing::ranks(rt, came)?;
    print!(rt; " ({otherwise})\n")
}

// Checks the arrays with these bytes and superblock counters.
fn check(bytes: &[u8], counters: &[u32]) -> Checked {
    Checked(checking::check(shape_of(130, 8, 1), &LENGTHS, bytes, counters, &BLOCKS))
}

// Loads the arrays and checks them, whole and with one element changed.
fn check_arrays(rt: &impl Print) -> io::Result<()> {
    let counters = superblocks();
    line(
        rt,
        "The arrays of a small text are loaded and checked",
        check(&BYTES, &counters),
        "refused: the arrays did not arrive whole",
    )?;
    let mut bytes = BYTES;
    bytes[5] = 0x81;
    line(
        rt,
        "The same arrays with a byte that is counted otherwise",
        check(&bytes, &counters),
        "passed: the bytes are not compared with their counters",
    )?;
    let mut off_by_one = counters;
    off_by_one[385] = 2;
    line(
        rt,
        "The same arrays with one counter off by one",
        check(&BYTES, &off_by_one),
        "passed: a counter is not compared with its bytes",
    )
}

// Reads the words at two places.
fn read(
    rt: &impl Print,
    tried: &str,
    small: SmallIndex,
    first: usize,
    second: usize,
    otherwise: &str,
) -> io::Result<()> {
    let first = Outcome(small.ask(&[], Question::word_at(first)));
    let second = Outcome(small.ask(&[], Question::word_at(second)));
    print!(rt; "{tried}: {first} {second} ({otherwise})\n")
}

// Reads the words on each side of a code length.
fn read_words(rt: &impl Print) -> io::Result<()> {
    let small = SmallIndex::of(16513, &[127, 128, 16511, 16512], 130, 8);
    read(
        rt,
        "The last word of one byte and the first of two are read",
        small,
        0,
        1,
        "not 127 128: the code lengths are mixed up",
    )?;
    read(
        rt,
        "The last word of two bytes and the first of three are read",
        small,
        2,
        3,
        "not 16511 16512: the code lengths are mixed up",
    )
}

// Counts a word whose last byte stands in two nodes, a phrase with its first bytes in common with
// the words at a place, and neighbours to the left and to the right.
fn count_words(rt: &impl Print) -> io::Result<()> {
    let small = SmallIndex::of(130, &[0, 128, 0, 129, 128], 2, 8);
    let words = [129, 129];
    line(
        rt,
        "How often the word 128 stands in 0 128 0 129 128",
        Outcome(small.ask(&words, Question::occurrences_below(128, 5))),
        "4: its last byte is counted outside its node",
    )?;
    line(
        rt,
        "How often the phrase 129 129 stands there",
        Outcome(small.ask(&words, Question::phrase(0, 2))),
        "1: a first byte in common is taken for the whole word",
    )?;
    line(
        rt,
        "How often 129 has 0 next to it on the left there",
        Outcome(small.ask(&words, Question::neighbours(129, 0, -1))),
        "0: left is taken for right",
    )?;
    line(
        rt,
        "How often 0 has 129 next to it on the right there",
        Outcome(small.ask(&words, Question::neighbours(0, 129, 1))),
        "not the same number: the two sides are counted differently",
    )
}

// Reads a passage of the words on each side of a code length.
fn read_passage(rt: &impl Print) -> io::Result<()> {
    let small = SmallIndex::of(16513, &[127, 128, 16511, 16512], 130, 8);
    let mut ranks = [9u32; 3];
    let count = Outcome(small.passage(1, &mut ranks));
    print!(rt; "The three words from place 1 on are read as one passage:")?;
    printing::ranks(rt, &ranks)?;
    print!(rt;
        ", {count} words (not 128 16511 16512 and 3: a passage is not the words one by one)\n"
    )
}

// Prints the place on a page of one line of the phrase 7 7, and whether more follow.
fn page_of_one(rt: &impl Print, small: SmallIndex, state: Listing) -> io::Result<Listing> {
    let mut lines = [9u32; 1];
    let page = small.page(state, &[7, 7], 0, 2, &mut lines);
    let behind = behind(page.more);
    printing::ranks(rt, &lines)?;
    print!(rt; " {behind}")?;
    Ok(page.listing)
}

// Asks for a page of no lines of the phrase 7 7, which is turned down, and lists on with the state
// that it hands back.
fn refuse_page(rt: &impl Print, small: SmallIndex, state: Listing) -> io::Result<()> {
    let page = small.page(state, &[7, 7], 0, 2, &mut []);
    let refused = Outcome(page.answer);
    print!(rt; "After the first of these pages one of no lines is asked for: {refused}, ")?;
    print!(rt; "and the page after it lists")?;
    page_of_one(rt, small, page.listing)?;
    print!(rt; " (not 12, or not 1 and more: a page that is turned down moves the listing)\n")
}

// Lists a phrase that overlaps itself, on one page and on pages of one line, and counts it.
fn list_phrase(rt: &impl Print) -> io::Result<()> {
    let small = SmallIndex::of(8, &[7; 4], 1, 4);
    let mut lines = [9u32; 3];
    small.page(Listing::open(), &[7, 7], 0, 2, &mut lines);
    line_of_ranks(
        rt,
        "The phrase 7 7, which overlaps itself, is listed in 7 7 7 7 at every place",
        &lines,
        "without 1: the search moves on by the phrase's length",
    )?;
    print!(rt; "On pages of one line it is listed at")?;
    let second = page_of_one(rt, small, Listing::open())?;
    print!(rt; ",")?;
    let third = page_of_one(rt, small, second)?;
    print!(rt; ",")?;
    page_of_one(rt, small, third)?;
    print!(rt; " (an earlier end, or a 9: the later pages are blank)\n")?;
    refuse_page(rt, small, second)?;
    line(
        rt,
        "How often it is counted",
        Outcome(small.ask(&[7, 7], Question::phrase(0, 2))),
        "not 3: the count is unlike the listing",
    )
}

// Lists the phrase of no words, with which a screen starts before a word is typed, and counts it.
fn list_places(rt: &impl Print) -> io::Result<()> {
    let small = SmallIndex::of(8, &[7; 4], 1, 4);
    let mut lines = [9u32; 4];
    let page = small.page(Listing::open(), &[], 0, 0, &mut lines);
    let mut last = [9u32; 1];
    small.page(page.listing, &[], 0, 0, &mut last);
    print!(rt;
        "Before a word is typed, the phrase of no words is listed there on pages of four and "
    )?;
    print!(rt; "one:")?;
    printing::ranks(rt, &lines)?;
    print!(rt; ",")?;
    printing::ranks(rt, &last)?;
    print!(rt; " (not 0 1 2 3, 4: a place is left out, or the end of the text is none)\n")?;
    line(
        rt,
        "How often it is counted",
        Outcome(small.ask(&[], Question::phrase(0, 0))),
        "not 5: the count is unlike the listing",
    )
}

// Lists a phrase with a word that nobody used, whose rank is V, and counts it.
fn list_absent(rt: &impl Print) -> io::Result<()> {
    let small = SmallIndex::of(8, &[7; 4], 1, 4);
    let mut lines = [9u32; 1];
    let page = small.page(Listing::open(), &[7, 8], 0, 2, &mut lines);
    let count = Outcome(page.answer);
    let behind = behind(page.more);
    print!(rt; "The places of 7 8 there, where V is 8, so that 8 is a word that nobody used: ")?;
    print!(rt; "{count} {behind} (refused, or not 0 and the end: ")?;
    print!(rt; "an absent word is taken for a fault or for another word)\n")?;
    line(
        rt,
        "How often it is counted",
        Outcome(small.ask(&[7, 8], Question::phrase(0, 2))),
        "not 0: the count is unlike the listing",
    )?;
    line(
        rt,
        "How often 7 9 is counted",
        Outcome(small.ask(&[7, 9], Question::phrase(0, 2))),
        "not 9: a rank above V is taken for a word",
    )
}

// Lists the phrase 7 7 in a text of two documents, and counts it in both together and in each.
fn list_in_documents(rt: &impl Print) -> io::Result<()> {
    let small = SmallIndex::of(8, &[7; 4], 1, 4);
    let starts = [0, 2];
    let mut lines = [9u32; 2];
    small.page_in_documents(Listing::open(), &starts, &[7, 7], 0, 2, &mut lines);
    line_of_ranks(
        rt,
        "With a document that starts at place 2, the phrase 7 7 is listed in 7 7 7 7 at",
        &lines,
        "with 1: a phrase that begins in one document and ends in the next is listed",
    )?;
    line(
        rt,
        "How often it is counted with that document",
        Outcome(small.ask_in_documents(&starts, &[7, 7], Question::phrase(0, 2))),
        "not 2: the count is unlike the listing",
    )?;
    let mut counts = [9u32; 2];
    small.summary(&starts, &[7, 7], 0, 2, &mut counts);
    line_of_ranks(
        rt,
        "How often it stands in each of the two documents",
        &counts,
        "not 1 1: a count is given to another document",
    )?;
    line(
        rt,
        "With a document that starts at the end of the text",
        Outcome(small.ask_in_documents(&[0, 4], &[7, 7], Question::phrase(0, 2))),
        "not 19: a document without a word is taken for one",
    )
}

// Builds a text in slices of two nodes, eight bytes and two rows of counters of each kind, with sizes
// that are handed back.
fn build(text: &[u32], sizes: IndexSizes) -> Outcome {
    let mut lengths = [0u32; 2];
    let mut bytes = [0u8; 8];
    let mut superblocks = [0u32; 512];
    let mut blocks = [0u16; 512];
    Outcome(building::build_sized(
        shape_of(130, 8, 1),
        sizes,
        text,
        &mut lengths,
        &mut bytes,
        &mut superblocks,
        &mut blocks,
    ))
}

// Measures a text before memory is lent, and builds it with its sizes: as it is, and with a word
// changed since.
fn measure_text(rt: &impl Print) -> io::Result<()> {
    let text = [0, 128, 0, 129, 128];
    let measured = measuring::measure(shape_of(130, 8, 1), &text);
    let sizes = measured.sizes;
    let IndexSizes {
        nodes,
        bytes,
        superblock_rows,
        block_rows,
    } = sizes;
    print!(rt; "What 0 128 0 129 128 needs, before memory is lent: ")?;
    print!(rt; "nodes, bytes, superblock rows, block rows: ")?;
    print!(rt; "{nodes} {bytes} {superblock_rows} {block_rows} ")?;
    print!(rt; "(not 2 8 2 2: the memory that is lent is too little or too much)\n")?;
    line(
        rt,
        "With these sizes it is built in slices of just so much, and has as many bytes",
        build(&text, sizes),
        "not 8: the sizes are not those that building needs",
    )?;
    line(
        rt,
        "With its last word changed to 0 since it was measured",
        build(&[0, 128, 0, 129, 0], sizes),
        "not 16: it is not noticed that the text was changed",
    )
}

// Makes the word list of a plain text that has none, and the ranks of its words.
fn make_list(rt: &impl Print) -> io::Result<()> {
    let mut list = [9u8; 6];
    let mut ranks = [9u32; 5];
    let made = list_making::make_list(b"c, B b; C a", &mut list, &mut ranks);
    print!(rt; "The word list that is made of the plain text c, B b; C a, byte by byte:")?;
    printing::bytes(rt, &list)?;
    print!(rt; " (not c, b and a, each closed by 0A: ")?;
    print!(rt; "the words are not in the order of their frequency)\n")?;
    let words = made.words;
    print!(rt; "The words of that text as ranks in its list:")?;
    printing::ranks(rt, &ranks)?;
    print!(rt; ", {words} words (not 0 1 1 0 2 and 5: the ranks are not those of the list)\n")?;
    line(
        rt,
        "The rank of the word that is spelled B in that list",
        Outcome(finding::find_word(&list, b"B")),
        "not 1: a spelling is not folded, or found at another place",
    )?;
    line(
        rt,
        "That of D, which is not in the list of 3 words",
        Outcome(finding::find_word(&list, b"D")),
        "not 3: a word that nobody used is refused, or taken for another",
    )
}

fn main(rt: HostRuntime) -> io::Result<()> {
    print!(rt; "Each line says what is tried and what came of it, and in brackets what another ")?;
    print!(rt; "result would mean. A word is written as its rank.\n")?;
    make_list(&rt)?;
    measure_text(&rt)?;
    check_arrays(&rt)?;
    read_words(&rt)?;
    read_passage(&rt)?;
    list_phrase(&rt)?;
    list_places(&rt)?;
    list_absent(&rt)?;
    list_in_documents(&rt)?;
    count_words(&rt)
}
