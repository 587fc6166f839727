// A page of the places at which a phrase stands inside one document: a loop over its hits, and one over
// all places for the phrase of no words.
//
// No function of this crate is an entry: `write_page` requires that the index has passed the check.
#![tactic(auto)]

ghost use Rattle.std.specs.Prelude.{◌≡◌, true, false, ◌≤◌, length};
ghost use Rattle.base.specs.Lists.{Below};
ghost use Rattle.base.specs.Texts.{max_words, max_phrase};
ghost use Rattle.base.specs.Answers.{front};
ghost use Rattle.index.specs.Arrays.{text_in};
ghost use Rattle.index.specs.Lent.{slices_of};
ghost use Rattle.words.specs.Ready.{Checked};
ghost use Rattle.words.specs.Texts.{text_of, vocabulary_of};
ghost use Rattle.documents.specs.Documents.{is_ascending, stands_in};
ghost use Rattle.pages.specs.Pages.{page_over};
ghost use Rattle.paging.specs.Places.{every_place};
ghost use Rattle.paging.specs.Written.{written_of, full_at, ended_at};

use index::LentIndex;
use matching::Sought;
use matching::query::Query;
use tree::Place;
use words::indexed_text::IndexedText;

// What a page has written: the number of hits, whether more follow, and the state after it.
#[derive(Clone, Copy)]
pub struct Written {
    pub count: usize,
    pub more: bool,
    pub next: Place,
    pub finished: bool,
}

impl Written {
    // A full page after which another hit follows: the next place is the last hit plus 1.
    fn full(count: usize, last: Place) -> Written
        requires { last.0 ≤ max_words }
        ensures { result ≡ full_at count last }
    {
        let next = Place(last.0 + 1);
        Written {
            count,
            more: true,
            next,
            finished: false,
        }
    }

    // A page after which the hits of a text of n words have run out.
    fn ended(count: usize, n: usize) -> Written
        ensures { result ≡ ended_at count n }
    {
        Written {
            count,
            more: false,
            next: Place(n),
            finished: true,
        }
    }
}

// Writes the places at or after the next one at which a phrase stands inside one document to the front
// of a slice, until it is full or they run out. It stops at the one hit after a full slice.
fn fill_page(
    text: &IndexedText,
    documents: &[u32],
    words: &[u32],
    next: Place,
    lines: &mut [u32],
) -> Written
    requires { (1 ≤ length words.now) × (length words.now ≤ max_phrase) × Below (vocabulary_of text.now) words.now × (next.0 ≤ length (text_of text.now)) × (is_ascending documents.now ≡ true) }
    ensures { (result ≡ written_of (page_over (stands_in documents.now (text_of text.now) words.now) (length (text_of text.now)) (length lines.old) next.0 false))
        × (lines.new ≡ front (page_over (stands_in documents.now (text_of text.now) words.now) (length (text_of text.now)) (length lines.old) next.0 false).found lines.old) }
{
    let mut table = [0u8; 16];
    matching::first_bytes(text.index.s, words, &mut table);
    let query = Query {
        text: *text,
        documents,
        firsts: &table[..words.len()],
        words,
        sought: Sought::Phrase,
    };
    // The lines written are counted here, since their number is handed back at the end too.
    let mut count = 0;
    let mut last = Place(0);
    for place in hits::hits_from(&query, next) {
        if count == lines.len() {
            return Written::full(count, last);
        }
        lines[count] = place.0 as u32;
        count += 1;
        last = place;
    }
    Written::ended(count, text.length())
}

// Writes the places from one on, up to an end and with it, to the front of a slice, until it is full
// or they run out.
fn write_places(from: Place, end: Place, lines: &mut [u32]) -> Written
    requires { (from.0 ≤ end.0) × (end.0 ≤ max_words) }
    ensures { (result ≡ written_of (page_over every_place end.0 (length lines.old) from.0 false))
        × (lines.new ≡ front (page_over every_place end.0 (length lines.old) from.0 false).found lines.old) }
{
    // As in `fill_page` the lines written are counted here.
    let mut count = 0;
    let mut last = Place(0);
    for at in from.0..=end.0 {
        if count == lines.len() {
            return Written::full(count, last);
        }
        lines[count] = at as u32;
        count += 1;
        last = Place(at);
    }
    Written::ended(count, end.0)
}

// Writes a page of the places at or after the next one at which a phrase stands inside one document.
// One of no words stands at every place of the text, its end too: no table is made for it, and
// nothing is sought.
pub fn write_page(
    index: &LentIndex,
    documents: &[u32],
    words: &[u32],
    next: Place,
    lines: &mut [u32],
) -> Written
    requires { Checked index.now.s index.now.shape (slices_of index.now) × (length words.now ≤ max_phrase) × Below index.now.shape.vocabulary words.now × (next.0 ≤ length (text_in index.now.s (slices_of index.now))) × (is_ascending documents.now ≡ true) }
    ensures { (result ≡ written_of (page_over (stands_in documents.now (text_in index.now.s (slices_of index.now)) words.now) (length (text_in index.now.s (slices_of index.now))) (length lines.old) next.0 false))
        × (lines.new ≡ front (page_over (stands_in documents.now (text_in index.now.s (slices_of index.now)) words.now) (length (text_in index.now.s (slices_of index.now))) (length lines.old) next.0 false).found lines.old) }
{
    if words.is_empty() {
        let end = Place(words::text_length(index.lengths));
        return write_places(next, end, lines);
    }
    let mut starts = [0u32; starts::MAX_STARTS];
    starts::node_starts(index.lengths, &mut starts);
    let text = IndexedText {
        index: *index,
        starts: &starts,
    };
    fill_page(&text, documents, words, next, lines)
}
