// A listing of the places where a phrase stands, page by page: anywhere in the text, or only inside
// one document.
#![tactic(auto)]

ghost use Rattle.std.specs.Prelude.{◌≡◌, length, MatchResult};
ghost use Rattle.base.specs.Answers.{accepted, refused};
ghost use Rattle.base.specs.Outcomes.{number_of, refused_answer};
ghost use Rattle.dense.specs.Code.{Closing};
ghost use Rattle.index.specs.Arrays.{arrays, text_in};
ghost use Rattle.index.specs.Lent.{slices_of};
ghost use Rattle.documents.specs.Documents.{one_start};
ghost use Rattle.questions.specs.Answering.{phrase_in};
ghost use Rattle.listing.specs.Paging.{opened, unwritten, call_of, request_answer, page_of};

use base::Answer;
use base::refusal::{Refusal, Refused};
use index::{LentIndex, Shape};
use tree::Place;

// The state of a listing, which each page takes and hands back: the next place, and whether it is
// finished.
#[repr(C)]
#[derive(Clone, Copy)]
pub struct Listing {
    pub next: usize,
    pub finished: bool,
}

// What a page returns: its answer, whether more hits follow, and the state for the next page.
#[repr(C)]
#[derive(Clone, Copy)]
pub struct Page {
    pub answer: Answer,
    pub more: bool,
    pub listing: Listing,
}

impl Page {
    // A page that writes nothing, reports nothing more, and hands back a state.
    fn unwritten(answer: Answer, listing: Listing) -> Page
        ensures { result ≡ unwritten answer listing }
    {
        Page {
            answer,
            more: false,
            listing,
        }
    }

    // A page of a refused call.
    fn refused(refused: Refused, listing: Listing) -> Page
        ensures { result ≡ unwritten (refused_answer refused) listing }
    {
        Page::unwritten(refused.into(), listing)
    }
}

impl Listing {
    // A listing that has written nothing.
    pub fn open() -> Listing
        ensures { result ≡ opened }
    {
        Listing {
            next: 0,
            finished: false,
        }
    }

    // The next page of the listing of a phrase, which is a part of the lent words, of an index of
    // the published code. Refusals 1, 3, 6, 8, 9, 11 and 12 hand back the state and leave the lines.
    pub fn page(
        self,
        shape: Shape,
        lengths: &[u32],
        bytes: &[u8],
        superblocks: &[u32],
        blocks: &[u16],
        words: &[u32],
        start: usize,
        count: usize,
        lines: &mut [u32],
    ) -> Page
        ensures { (result ≡ (page_of (call_of 128 shape (arrays lengths.now bytes.now superblocks.now blocks.now) (one_start (length (text_in 128 (arrays lengths.now bytes.now superblocks.now blocks.now)))) words.now start count lines.old) self).page) × (lines.new ≡ (page_of (call_of 128 shape (arrays lengths.now bytes.now superblocks.now blocks.now) (one_start (length (text_in 128 (arrays lengths.now bytes.now superblocks.now blocks.now)))) words.now start count lines.old) self).lines) }
    {
        let index = LentIndex {
            s: dense::CLOSING,
            shape,
            lengths,
            bytes,
            superblocks,
            blocks,
        };
        let zero = [0u32; 1];
        let documents = documents::one_start(&zero, lengths);
        page_of(self, &index, documents, words, start, count, lines)
    }

    // The next page of the listing of the places where the phrase stands inside one document, by the
    // document starts that are brought. Refusals 1, 3, 6, 19, 8, 9, 11 and 12 hand back the state
    // and leave the lines.
    pub fn page_in_documents(
        self,
        shape: Shape,
        lengths: &[u32],
        bytes: &[u8],
        superblocks: &[u32],
        blocks: &[u16],
        documents: &[u32],
        words: &[u32],
        start: usize,
        count: usize,
        lines: &mut [u32],
    ) -> Page
        ensures { (result ≡ (page_of (call_of 128 shape (arrays lengths.now bytes.now superblocks.now blocks.now) documents.now words.now start count lines.old) self).page) × (lines.new ≡ (page_of (call_of 128 shape (arrays lengths.now bytes.now superblocks.now blocks.now) documents.now words.now start count lines.old) self).lines) }
    {
        let index = LentIndex {
            s: dense::CLOSING,
            shape,
            lengths,
            bytes,
            superblocks,
            blocks,
        };
        page_of(self, &index, documents, words, start, count, lines)
    }
}

// The phrase of a page call whose index and starts have passed: the tests of the phrase, then of the
// next place in a text of n words, and of the page's room.
fn requested<'a>(
    vocabulary: usize,
    words: &'a [u32],
    start: usize,
    count: usize,
    n: usize,
    next: usize,
    room: usize,
) -> Result<&'a [u32], Refusal>
    ensures { MatchResult result (λ phrase. (request_answer vocabulary words.now start count n next room ≡ accepted 0) × (phrase.now ≡ phrase_in words.now start count)) (λ e. request_answer vocabulary words.now start count n next room ≡ refused (number_of e)) }
{
    let phrase = phrase_checks::phrase_in(vocabulary, words, start, count)?;
    if n < next {
        return Err(Refusal::Place);
    }
    if room == 0 {
        return Err(Refusal::Page);
    }
    Ok(phrase)
}

// A page of a listing with document starts: all that it returns and writes is that of the papers.
pub fn page_of(
    state: Listing,
    index: &LentIndex,
    documents: &[u32],
    words: &[u32],
    start: usize,
    count: usize,
    lines: &mut [u32],
) -> Page
    requires { Closing index.now.s }
    ensures { (result ≡ (page_of (call_of index.now.s index.now.shape (slices_of index.now) documents.now words.now start count lines.old) state).page) × (lines.new ≡ (page_of (call_of index.now.s index.now.shape (slices_of index.now) documents.now words.now start count lines.old) state).lines) }
{
    if let Err(refused) = document_checks::check_in_documents(index, documents) {
        return Page::refused(refused, state);
    }
    let n = words::text_length(index.lengths);
    let vocabulary = index.shape.vocabulary;
    let phrase = match requested(vocabulary, words, start, count, n, state.next, lines.len()) {
        Ok(phrase) => phrase,
        Err(refusal) => return Page::refused(refusal.into(), state),
    };
    if state.finished {
        return Page::unwritten(Answer::accepted(0), state);
    }
    if phrase_checks::has_absent(vocabulary, phrase) {
        let end = Listing {
            next: n,
            finished: true,
        };
        return Page::unwritten(Answer::accepted(0), end);
    }
    let written = paging::write_page(index, documents, phrase, Place(state.next), lines);
    Page {
        answer: Answer::accepted(written.count),
        more: written.more,
        listing: Listing {
            next: written.next.0,
            finished: written.finished,
        },
    }
}
