// The entries that ask: a single question, with document starts or without, and a passage, with 128
// closing values in `ask`, `ask_in_documents` and `passage`.
#![tactic(auto)]

ghost use Rattle.std.specs.Prelude.{◌≡◌};
ghost use Rattle.base.specs.Outcomes.{answer_of};
ghost use Rattle.dense.specs.Code.{Closing};
ghost use Rattle.index.specs.Arrays.{arrays};
ghost use Rattle.index.specs.Lent.{slices_of};
ghost use Rattle.questions.specs.Answering.{ask_answer_in, ask_answer};
ghost use Rattle.questions.specs.Passages.{passage_answer, passage_exit};

use base::Answer;
use base::refusal::{Refusal, Refused};
use index::{LentIndex, Shape};
use questions::Question;
use questions::kind::Kind;
use tree::Place;
use words::indexed_text::IndexedText;

// Asks a question of an index with document starts: the answer is that of the papers. No table is made
// for the phrase of no words.
pub fn ask_in_documents_of(
    index: &LentIndex,
    documents: &[u32],
    words: &[u32],
    question: Question,
) -> Result<usize, Refused>
    requires { Closing index.now.s }
    ensures { answer_of result ≡ ask_answer_in index.now.s index.now.shape (slices_of index.now) documents.now words.now question }
{
    document_checks::check_in_documents(index, documents)?;
    if question.kind == Kind::Phrase as u32 && question.length == 0 {
        let n = words::text_length(index.lengths);
        return phrase_checks::answer_no_words(words, question.start, n);
    }
    let mut starts = [0u32; starts::MAX_STARTS];
    starts::node_starts(index.lengths, &mut starts);
    let text = IndexedText {
        index: *index,
        starts: &starts,
    };
    answering::answer(&text, documents, words, question)
}

// Asks a question of an index whose text is one document.
pub fn ask_of(index: &LentIndex, words: &[u32], question: Question) -> Result<usize, Refused>
    requires { Closing index.now.s }
    ensures { answer_of result ≡ ask_answer index.now.s index.now.shape (slices_of index.now) words.now question }
{
    let zero = [0u32; 1];
    let documents = documents::one_start(&zero, index.lengths);
    ask_in_documents_of(index, documents, words, question)
}

// Asks a question of an index of the published code with document starts. Refusals 1, 3, 6 and 19,
// then 7 to 11 as the kind needs; fields that the kind does not use never matter.
pub fn ask_in_documents(
    shape: Shape,
    lengths: &[u32],
    bytes: &[u8],
    superblocks: &[u32],
    blocks: &[u16],
    documents: &[u32],
    words: &[u32],
    question: Question,
) -> Answer
    ensures { result ≡ ask_answer_in 128 shape (arrays lengths.now bytes.now superblocks.now blocks.now) documents.now words.now question }
{
    let index = LentIndex {
        s: dense::CLOSING,
        shape,
        lengths,
        bytes,
        superblocks,
        blocks,
    };
    ask_in_documents_of(&index, documents, words, question).into()
}

// Asks a question of an index of the published code. Refusals 1, 3 and 6, then 7 to 11 as the kind
// needs; fields that the kind does not use never matter.
pub fn ask(
    shape: Shape,
    lengths: &[u32],
    bytes: &[u8],
    superblocks: &[u32],
    blocks: &[u16],
    words: &[u32],
    question: Question,
) -> Answer
    ensures { result ≡ ask_answer 128 shape (arrays lengths.now bytes.now superblocks.now blocks.now) words.now question }
{
    let index = LentIndex {
        s: dense::CLOSING,
        shape,
        lengths,
        bytes,
        superblocks,
        blocks,
    };
    ask_of(&index, words, question).into()
}

// Reads a passage of an index: the answer and the slice are those of paper 01.
pub fn passage_of(index: &LentIndex, place: usize, ranks: &mut [u32]) -> Result<usize, Refused>
    requires { Closing index.now.s }
    ensures { (answer_of result ≡ passage_answer index.now.s index.now.shape (slices_of index.now) place ranks.old) × (ranks.new ≡ passage_exit index.now.s index.now.shape (slices_of index.now) place ranks.old) }
{
    checking::check_of(index)?;
    let n = words::text_length(index.lengths);
    if n < place {
        return Err(Refusal::Place.into());
    }
    if n - place < ranks.len() {
        return Err(Refusal::Place.into());
    }
    let mut starts = [0u32; starts::MAX_STARTS];
    starts::node_starts(index.lengths, &mut starts);
    let text = IndexedText {
        index: *index,
        starts: &starts,
    };
    let from = Place(place);
    passages::read_passage(&text, from, ranks);
    Ok(ranks.len())
}

// Fills a whole slice with the ranks from a place on; an empty slice is filled for any place up to
// n. Refusals 1, 3, 6 and 11 leave it as it was.
pub fn passage(
    shape: Shape,
    lengths: &[u32],
    bytes: &[u8],
    superblocks: &[u32],
    blocks: &[u16],
    place: usize,
    ranks: &mut [u32],
) -> Answer
    ensures { (result ≡ passage_answer 128 shape (arrays lengths.now bytes.now superblocks.now blocks.now) place ranks.old) × (ranks.new ≡ passage_exit 128 shape (arrays lengths.now bytes.now superblocks.now blocks.now) place ranks.old) }
{
    let index = LentIndex {
        s: dense::CLOSING,
        shape,
        lengths,
        bytes,
        superblocks,
        blocks,
    };
    passage_of(&index, place, ranks).into()
}
