// What the lines of the cases build up: the index, the lent words, the document starts, the state of
// the listing, and the word list.
use given::{Numbers, Ranks, Spelled};
use listing::Listing;
use small_indexes::{SmallIndex, shape_of};
use std::io;

// The most lines of a page.
const MOST_LINES: usize = 20;

// The index that calls are lent, the lent words, the document starts and whether calls bring them,
// the state of the listing, and the word list. Calls that count by document bring the starts always.
#[derive(Clone, Copy)]
pub struct State {
    pub small: SmallIndex,
    pub words: Ranks,
    pub documents: Ranks,
    brought: bool,
    listing: Listing,
    pub list: Spelled,
}

// Changes an element of an array, where there is one.
fn put<T: Drop>(array: &mut [T], i: usize, x: T) {
    if let Some(element) = array.get_mut(i) {
        *element = x;
    }
}

// Yes or no.
fn yes_or_no(yes: bool) -> &'static str {
    if yes { "yes" } else { "no" }
}

impl State {
    // The index of the text of no words with V 1, no lent words, no document starts, an opened
    // listing, and no list.
    pub fn first() -> State {
        State {
            small: SmallIndex::of(1, &[], 1, 0),
            words: Ranks::none(),
            documents: Ranks::none(),
            brought: false,
            listing: Listing::open(),
            list: Spelled::none(),
        }
    }

    // The document starts, where calls bring them.
    pub fn starts(&self) -> Option<&[u32]> {
        if self.brought {
            Some(self.documents.as_slice())
        } else {
            None
        }
    }

    // Builds the index of a text, and prints the answer and the node bytes.
    pub fn build(&mut self, rt: &impl Print, numbers: &Numbers) -> io::Result<()> {
        let shape = shape_of(numbers.at(0), numbers.at(1), numbers.at(2));
        let text = numbers.ranks(3);
        self.small = SmallIndex::built(shape, text.as_slice(), self.small.sizes);
        printing::answered_with_bytes(rt, self.small.answer, &self.small.bytes)
    }

    // Lends other parts of the arrays.
    pub fn size(&mut self, numbers: &Numbers) {
        self.small = self
            .small
            .with_sizes(numbers.at(0), numbers.at(1), numbers.at(2), numbers.at(3));
    }

    // Gives another V, B and b.
    pub fn reshape(&mut self, numbers: &Numbers) {
        self.small = self
            .small
            .with_shape(numbers.at(0), numbers.at(1), numbers.at(2));
    }

    // Changes an element of one of the arrays.
    pub fn modify(&mut self, numbers: &Numbers) {
        let i = numbers.at(1);
        let x = numbers.at(2);
        match numbers.at(0) {
            0 => put(&mut self.small.lengths, i, given::narrow(x)),
            1 => put(&mut self.small.bytes, i, given::low_byte(x)),
            2 => put(&mut self.small.superblocks, i, given::narrow(x)),
            _ => put(&mut self.small.blocks, i, (x % 65536) as u16),
        }
    }

    // Lends other words.
    pub fn lend(&mut self, numbers: &Numbers) {
        self.words = numbers.ranks(0);
    }

    // Brings document starts from here on.
    pub fn group(&mut self, numbers: &Numbers) {
        self.documents = numbers.ranks(0);
        self.brought = true;
    }

    // Brings none from here on.
    pub fn join(&mut self) {
        self.brought = false;
    }

    // Opens the listing, or sets its state to any.
    pub fn open(&mut self, numbers: &Numbers) {
        self.listing = match numbers.values() {
            [next, finished, ..] => Listing {
                next: *next,
                finished: *finished == 1,
            },
            _ => Listing::open(),
        };
    }

    // Turns a page of so many lines, at most 20, and prints what the call returns and leaves.
    pub fn turn(&mut self, rt: &impl Print, numbers: &Numbers) -> io::Result<()> {
        let start = numbers.at(0);
        let count = numbers.at(1);
        let words = self.words.as_slice();
        let mut lines = [9u32; MOST_LINES];
        let lines = &mut lines[..numbers.at(2).min(MOST_LINES)];
        let page = match self.starts() {
            Some(starts) => self
                .small
                .page_in_documents(self.listing, starts, words, start, count, lines),
            None => self.small.page(self.listing, words, start, count, lines),
        };
        self.listing = page.listing;
        printing::answered(rt, page.answer)?;
        let more = yes_or_no(page.more);
        let next = page.listing.next;
        let finished = yes_or_no(page.listing.finished);
        print!(rt; ", more {more}, next {next}, finished {finished}:")?;
        printing::ranks(rt, lines)
    }

    // Takes another word list.
    pub fn take_list(&mut self, line: &[u8]) {
        self.list = given::spelled_by(line, 1);
    }
}
