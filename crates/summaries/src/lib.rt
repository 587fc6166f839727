// A summary beside the index: how often a phrase stands in each document.
#![tactic(auto)]

ghost use Rattle.std.specs.Prelude.{◌≡◌, length, MatchResult};
ghost use Rattle.base.specs.Answers.{accepted, refused};
ghost use Rattle.base.specs.Outcomes.{number_of, answer_of};
ghost use Rattle.dense.specs.Code.{Closing};
ghost use Rattle.index.specs.Arrays.{arrays};
ghost use Rattle.index.specs.Lent.{slices_of};
ghost use Rattle.questions.specs.Answering.{phrase_in};
ghost use Rattle.summaries.specs.Summaries.{summary_request, summary_answer, summary_exit};

use base::Answer;
use base::refusal::{Refusal, Refused};
use index::{LentIndex, Shape};
use words::indexed_text::IndexedText;

// The phrase of a summary whose index and starts have passed: the tests of the phrase, which has a
// word or more here, and of the room for a count a document.
fn requested<'a>(
    vocabulary: usize,
    words: &'a [u32],
    start: usize,
    count: usize,
    documents: usize,
    room: usize,
) -> Result<&'a [u32], Refusal>
    ensures { MatchResult result (λ phrase. (summary_request vocabulary words.now start count documents room ≡ accepted 0) × (phrase.now ≡ phrase_in words.now start count)) (λ e. summary_request vocabulary words.now start count documents room ≡ refused (number_of e)) }
{
    if count == 0 {
        return Err(Refusal::Phrase);
    }
    let phrase = phrase_checks::phrase_in(vocabulary, words, start, count)?;
    if room < documents {
        return Err(Refusal::Page);
    }
    Ok(phrase)
}

// A summary of an index: the answer and the slice are those of the papers.
pub fn summary_of(
    index: &LentIndex,
    documents: &[u32],
    words: &[u32],
    start: usize,
    count: usize,
    counts: &mut [u32],
) -> Result<usize, Refused>
    requires { Closing index.now.s }
    ensures { (answer_of result ≡ summary_answer index.now.s index.now.shape (slices_of index.now) documents.now words.now start count (length counts.old)) × (counts.new ≡ summary_exit index.now.s index.now.shape (slices_of index.now) documents.now words.now start count counts.old) }
{
    document_checks::check_in_documents(index, documents)?;
    let size = documents.len();
    let room = counts.len();
    let vocabulary = index.shape.vocabulary;
    let phrase = requested(vocabulary, words, start, count, size, room)?;
    if phrase_checks::has_absent(vocabulary, phrase) {
        document_counts::clear_counts(counts, size);
        return Ok(size);
    }
    let mut starts = [0u32; starts::MAX_STARTS];
    starts::node_starts(index.lengths, &mut starts);
    let text = IndexedText {
        index: *index,
        starts: &starts,
    };
    document_counts::count_by_document(&text, documents, phrase, counts);
    Ok(size)
}

// Writes how often a phrase, which is a part of the lent words, stands in each document of an index
// of the published code to the front of a slice, and answers the number of documents. Refusals 1, 3,
// 6, 19, 8, also for the phrase of no words, 9 and 12 leave the slice as it was.
pub fn summary(
    shape: Shape,
    lengths: &[u32],
    bytes: &[u8],
    superblocks: &[u32],
    blocks: &[u16],
    documents: &[u32],
    words: &[u32],
    start: usize,
    count: usize,
    counts: &mut [u32],
) -> Answer
    ensures { (result ≡ summary_answer 128 shape (arrays lengths.now bytes.now superblocks.now blocks.now) documents.now words.now start count (length counts.old)) × (counts.new ≡ summary_exit 128 shape (arrays lengths.now bytes.now superblocks.now blocks.now) documents.now words.now start count counts.old) }
{
    let index = LentIndex {
        s: dense::CLOSING,
        shape,
        lengths,
        bytes,
        superblocks,
        blocks,
    };
    summary_of(&index, documents, words, start, count, counts).into()
}
