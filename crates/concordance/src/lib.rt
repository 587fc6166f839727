// The entries of the engine under their C names. Each but the two of a sheet is the entry of its
// crate, with the same contract; none has a `requires`. The static library `concordance_c` exports
// each to C.
#![tactic(auto)]

ghost use Rattle.std.specs.Prelude.{◌≡◌, length};
ghost use Rattle.dense.specs.Streams.{write_stream_answer, write_stream_exit, read_stream_answer, read_stream_exit};
ghost use Rattle.index.specs.Arrays.{arrays, text_in};
ghost use Rattle.index.specs.Entries.{build_answer, build_exit, check_answer};
ghost use Rattle.measuring.specs.Sizes.{measured_of, build_sized_answer, build_sized_exit};
ghost use Rattle.documents.specs.Documents.{one_start};
ghost use Rattle.questions.specs.Answering.{ask_answer_in, ask_answer};
ghost use Rattle.questions.specs.Passages.{passage_answer, passage_exit};
ghost use Rattle.listing.specs.Paging.{opened, call_of, page_of};
ghost use Rattle.summaries.specs.Summaries.{summary_answer, summary_exit};
ghost use Rattle.lexicon.specs.Letters.{letters};
ghost use Rattle.lexicon.specs.Reading.{read_text_answer, read_text_exit};
ghost use Rattle.finding.specs.Finding.{find_word_answer};
ghost use Rattle.list_calls.specs.Making.{list_made, make_list_exit, make_ranks_exit};
ghost use Rattle.lexicon.specs.Tables.{table_answer};
ghost use Rattle.lent_tables.specs.Calls.{read_text_with_answer, read_text_with_exit, find_word_with_answer, list_made_with, make_list_with_exit, make_ranks_with_exit};
ghost use Rattle.sheet_calls.specs.Sheets.{sheet_answer, sheet_exit};

use base::Answer;
use index::{LentIndex, Shape};
use list_calls::ListMade;
use listing::{Listing, Page};
use measuring::{IndexSizes, Measured};
use questions::Question;
use words::indexed_text::IndexedText;

// Writes a text as a stream to the front of a slice, and answers the number of bytes. Refusals 1, 2,
// 4 with the first place whose rank is not below the vocabulary's size, and 5 leave the slice as it
// was.
pub fn concordance_write_stream(vocabulary: usize, text: &[u32], stream: &mut [u8]) -> Answer
    ensures { (result ≡ write_stream_answer 128 vocabulary text.now stream.old) × (stream.new ≡ write_stream_exit 128 vocabulary text.now stream.old) }
{
    dense::write_stream(vocabulary, text, stream)
}

// Reads a stream as a text into the front of a slice, and answers the number of words. Refusals 2, 5
// and 15 leave the slice as it was.
pub fn concordance_read_stream(stream: &[u8], text: &mut [u32]) -> Answer
    ensures { (result ≡ read_stream_answer 128 stream.now text.old) × (text.new ≡ read_stream_exit 128 stream.now text.old) }
{
    dense::read_stream(stream, text)
}

// Builds the index of a text in front of the four slices, and answers the number of node bytes.
// Refusals 1, 2, 3, 4 with the first place whose rank is not below the vocabulary's size, and 5
// leave the slices as they were.
pub fn concordance_build(
    shape: Shape,
    text: &[u32],
    lengths: &mut [u32],
    bytes: &mut [u8],
    superblocks: &mut [u32],
    blocks: &mut [u16],
) -> Answer
    ensures answered { result ≡ build_answer 128 shape text.now (arrays lengths.old bytes.old superblocks.old blocks.old) }
    ensures filled { arrays lengths.new bytes.new superblocks.new blocks.new
        ≡ build_exit 128 shape text.now (arrays lengths.old bytes.old superblocks.old blocks.old) }
{
    building::build(shape, text, lengths, bytes, superblocks, blocks)
}

// Measures a text: the sizes of its index beside the answer 0. Refusals 1, 2, 3, and 4 with the first
// place whose rank is not below the vocabulary's size, have four zeros beside them.
pub fn concordance_measure(shape: Shape, text: &[u32]) -> Measured
    ensures { result ≡ measured_of 128 shape text.now }
{
    measuring::measure(shape, text)
}

// Builds the index of a text with the four sizes that measuring gave, in front of the four slices,
// and answers the number of node bytes. Refusals 1, 2, 3, 4 with the first place whose rank is not
// below the vocabulary's size, 16 if the sizes are not those of the text, and 5 leave the slices as
// they were.
pub fn concordance_build_sized(
    shape: Shape,
    sizes: IndexSizes,
    text: &[u32],
    lengths: &mut [u32],
    bytes: &mut [u8],
    superblocks: &mut [u32],
    blocks: &mut [u16],
) -> Answer
    ensures answered { result ≡ build_sized_answer 128 shape sizes text.now (arrays lengths.old bytes.old superblocks.old blocks.old) }
    ensures filled { arrays lengths.new bytes.new superblocks.new blocks.new
        ≡ build_sized_exit 128 shape sizes text.now (arrays lengths.old bytes.old superblocks.old blocks.old) }
{
    building::build_sized(shape, sizes, text, lengths, bytes, superblocks, blocks)
}

// Checks an index: 0 is answered exactly if some text of the vocabulary has the four slices as its
// index. Refusals 1, 3 and 6.
pub fn concordance_check(
    shape: Shape,
    lengths: &[u32],
    bytes: &[u8],
    superblocks: &[u32],
    blocks: &[u16],
) -> Answer
    ensures { result ≡ check_answer 128 shape (arrays lengths.now bytes.now superblocks.now blocks.now) }
{
    checking::check(shape, lengths, bytes, superblocks, blocks)
}

// Asks a question of an index. Refusals 1, 3 and 6, then 7 to 11 as the kind needs; fields that the
// kind does not use never matter.
pub fn concordance_ask(
    shape: Shape,
    lengths: &[u32],
    bytes: &[u8],
    superblocks: &[u32],
    blocks: &[u16],
    words: &[u32],
    question: Question,
) -> Answer
    ensures { result ≡ ask_answer 128 shape (arrays lengths.now bytes.now superblocks.now blocks.now) words.now question }
{
    asking::ask(shape, lengths, bytes, superblocks, blocks, words, question)
}

// Asks a question of an index inside documents, whose starts it brings. Refusals 1, 3, 6, and 19 for
// starts that break a rule, then 7 to 11 as the kind needs; fields that the kind does not use never
// matter.
pub fn concordance_ask_in_documents(
    shape: Shape,
    lengths: &[u32],
    bytes: &[u8],
    superblocks: &[u32],
    blocks: &[u16],
    documents: &[u32],
    words: &[u32],
    question: Question,
) -> Answer
    ensures { result ≡ ask_answer_in 128 shape (arrays lengths.now bytes.now superblocks.now blocks.now) documents.now words.now question }
{
    asking::ask_in_documents(
        shape,
        lengths,
        bytes,
        superblocks,
        blocks,
        documents,
        words,
        question,
    )
}

// Answers a sheet of questions of an index: the check is made once, and then each question is
// answered as `concordance_ask` answers it. The answer of the sheet is twice the number of its
// questions; their pairs, the refusal or 0 and the value, stand in order in front of the slice, and
// the rest stays. Refusals 1, 3, 6, and 12 for a slice shorter than two elements a question, leave
// the slice as it was; 7 to 11 go into the question's own pair, with the value 0.
pub fn concordance_answer_sheet(
    shape: Shape,
    lengths: &[u32],
    bytes: &[u8],
    superblocks: &[u32],
    blocks: &[u16],
    words: &[u32],
    questions: &[Question],
    answers: &mut [u32],
) -> Answer
    ensures { (result ≡ sheet_answer 128 shape (arrays lengths.now bytes.now superblocks.now blocks.now) (one_start (length (text_in 128 (arrays lengths.now bytes.now superblocks.now blocks.now)))) (length questions.now) (length answers.old)) × (answers.new ≡ sheet_exit 128 shape (arrays lengths.now bytes.now superblocks.now blocks.now) (one_start (length (text_in 128 (arrays lengths.now bytes.now superblocks.now blocks.now)))) words.now questions.now answers.old) }
{
    let zero = [0u32; 1];
    let documents = documents::one_start(&zero, lengths);
    concordance_answer_sheet_in_documents(
        shape,
        lengths,
        bytes,
        superblocks,
        blocks,
        documents,
        words,
        questions,
        answers,
    )
}

// Answers a sheet of questions of an index inside documents, whose starts it brings: the check is
// made once, and then each question is answered as `concordance_ask_in_documents` answers it.
// Refusals 1, 3, 6, 19 for starts that break a rule, and 12 leave the slice as it was; else as
// `concordance_answer_sheet`.
pub fn concordance_answer_sheet_in_documents(
    shape: Shape,
    lengths: &[u32],
    bytes: &[u8],
    superblocks: &[u32],
    blocks: &[u16],
    documents: &[u32],
    words: &[u32],
    questions: &[Question],
    answers: &mut [u32],
) -> Answer
    ensures { (result ≡ sheet_answer 128 shape (arrays lengths.now bytes.now superblocks.now blocks.now) documents.now (length questions.now) (length answers.old)) × (answers.new ≡ sheet_exit 128 shape (arrays lengths.now bytes.now superblocks.now blocks.now) documents.now words.now questions.now answers.old) }
{
    let index = LentIndex {
        s: dense::CLOSING,
        shape,
        lengths,
        bytes,
        superblocks,
        blocks,
    };
    let mut starts = [0u32; starts::MAX_STARTS];
    let asked = questions.len();
    let room = answers.len();
    let size = match sheets::prepare(&index, documents, asked, room, &mut starts) {
        Ok(size) => size,
        Err(refused) => return refused.into(),
    };
    let text = IndexedText {
        index,
        starts: &starts,
    };
    for (i, question) in questions.iter().enumerate() {
        sheets::answer_one(&text, documents, words, *question, answers, i);
    }
    Answer::accepted(size)
}

// Fills a whole slice with the ranks from a place on, and answers its length; an empty slice is
// filled for any place up to n. Refusals 1, 3, 6 and 11 leave it as it was.
pub fn concordance_passage(
    shape: Shape,
    lengths: &[u32],
    bytes: &[u8],
    superblocks: &[u32],
    blocks: &[u16],
    place: usize,
    passage: &mut [u32],
) -> Answer
    ensures { (result ≡ passage_answer 128 shape (arrays lengths.now bytes.now superblocks.now blocks.now) place passage.old) × (passage.new ≡ passage_exit 128 shape (arrays lengths.now bytes.now superblocks.now blocks.now) place passage.old) }
{
    asking::passage(shape, lengths, bytes, superblocks, blocks, place, passage)
}

// A listing that has written nothing: next 0, not finished.
pub fn concordance_open() -> Listing
    ensures { result ≡ opened }
{
    Listing::open()
}

// The next page of the listing of a phrase, which is a part of the lent words. Refusals 1, 3, 6, 8,
// 9, 11 and 12 hand back the state and leave the lines.
pub fn concordance_list(
    state: Listing,
    shape: Shape,
    lengths: &[u32],
    bytes: &[u8],
    superblocks: &[u32],
    blocks: &[u16],
    words: &[u32],
    start: usize,
    count: usize,
    lines: &mut [u32],
) -> Page
    ensures { (result ≡ (page_of (call_of 128 shape (arrays lengths.now bytes.now superblocks.now blocks.now) (one_start (length (text_in 128 (arrays lengths.now bytes.now superblocks.now blocks.now)))) words.now start count lines.old) state).page) × (lines.new ≡ (page_of (call_of 128 shape (arrays lengths.now bytes.now superblocks.now blocks.now) (one_start (length (text_in 128 (arrays lengths.now bytes.now superblocks.now blocks.now)))) words.now start count lines.old) state).lines) }
{
    state.page(
        shape,
        lengths,
        bytes,
        superblocks,
        blocks,
        words,
        start,
        count,
        lines,
    )
}

// The next page of the listing of a phrase, which is a part of the lent words, inside documents,
// whose starts it brings. Refusals 1, 3, 6, 19, 8, 9, 11 and 12 hand back the state and leave the
// lines.
pub fn concordance_list_in_documents(
    state: Listing,
    shape: Shape,
    lengths: &[u32],
    bytes: &[u8],
    superblocks: &[u32],
    blocks: &[u16],
    documents: &[u32],
    words: &[u32],
    start: usize,
    count: usize,
    lines: &mut [u32],
) -> Page
    ensures { (result ≡ (page_of (call_of 128 shape (arrays lengths.now bytes.now superblocks.now blocks.now) documents.now words.now start count lines.old) state).page) × (lines.new ≡ (page_of (call_of 128 shape (arrays lengths.now bytes.now superblocks.now blocks.now) documents.now words.now start count lines.old) state).lines) }
{
    state.page_in_documents(
        shape,
        lengths,
        bytes,
        superblocks,
        blocks,
        documents,
        words,
        start,
        count,
        lines,
    )
}

// Counts a phrase, which is a part of the lent words, in each document: one element a document to the
// front of a slice, and the rest stays. It answers the number of documents. Refusals 1, 3, 6, 19, 8,
// also for the phrase of no words, 9, and 12 for a slice with less than one element a document leave
// the slice as it was.
pub fn concordance_summary(
    shape: Shape,
    lengths: &[u32],
    bytes: &[u8],
    superblocks: &[u32],
    blocks: &[u16],
    documents: &[u32],
    words: &[u32],
    start: usize,
    count: usize,
    counts: &mut [u32],
) -> Answer
    ensures { (result ≡ summary_answer 128 shape (arrays lengths.now bytes.now superblocks.now blocks.now) documents.now words.now start count (length counts.old)) × (counts.new ≡ summary_exit 128 shape (arrays lengths.now bytes.now superblocks.now blocks.now) documents.now words.now start count counts.old) }
{
    summaries::summary(
        shape,
        lengths,
        bytes,
        superblocks,
        blocks,
        documents,
        words,
        start,
        count,
        counts,
    )
}

// Reads a plain text through a word list into the front of a slice: the rank of each word, folded by
// the letter table. It answers the number of words. Refusals 1, 2, 5, 13, and 14 with the byte
// offset of the first word that is not in the list, leave the slice as it was.
pub fn concordance_read_text(list: &[u8], text: &[u8], ranks: &mut [u32]) -> Answer
    ensures { (result ≡ read_text_answer letters list.now text.now ranks.old) × (ranks.new ≡ read_text_exit letters list.now text.now ranks.old) }
{
    plain_text::read_text(list, text, ranks)
}

// Finds a spelled word, folded by the letter table, in a word list: it answers its rank, and the number
// of the list's words where the list lacks it, as it lacks an empty spelling and one with a
// separator. Refusals 1 and 13.
pub fn concordance_find_word(list: &[u8], spelling: &[u8]) -> Answer
    ensures { result ≡ find_word_answer letters list.now spelling.now }
{
    finding::find_word(list, spelling)
}

// Makes a word list of a plain text, whose words are folded by the letter table: the list of its
// distinct words, most frequent first and equal ones by first appearance, to the front of one slice,
// and the rank of each word of the text to the front of the other. It gives how many elements of
// each it has written. Refusals 2, 17 and 5, in this order, leave both slices as they were.
pub fn concordance_make_list(text: &[u8], list: &mut [u8], ranks: &mut [u32]) -> ListMade
    ensures { (result ≡ list_made letters text.now list.old ranks.old) × (list.new ≡ make_list_exit letters text.now list.old ranks.old) × (ranks.new ≡ make_ranks_exit letters text.now list.old ranks.old) }
{
    list_making::make_list(text, list, ranks)
}

// Checks a letter table: 0 is answered exactly if it keeps the rules. Refusal 18.
pub fn concordance_check_letters(table: &[u8]) -> Answer
    ensures { result ≡ table_answer table.now }
{
    lexicon::check_table(table)
}

// Reads a plain text through a word list into the front of a slice: the rank of each word, folded by
// the lent table. It answers the number of words. Refusals 18, then 1, 2, 5, 13, and 14 with the
// byte offset of the first word that is not in the list, all by the lent table, leave the slice as it
// was.
pub fn concordance_read_text_with(
    table: &[u8],
    list: &[u8],
    text: &[u8],
    ranks: &mut [u32],
) -> Answer
    ensures { (result ≡ read_text_with_answer table.now list.now text.now ranks.old) × (ranks.new ≡ read_text_with_exit table.now list.now text.now ranks.old) }
{
    lent_tables::read_text_with(table, list, text, ranks)
}

// Finds a spelled word, folded by the lent table, in a word list: it answers its rank, and the number
// of the list's words where the list lacks it, as it lacks an empty spelling and one with a
// separator. Refusals 18, then 1 and 13, by the lent table.
pub fn concordance_find_word_with(table: &[u8], list: &[u8], spelling: &[u8]) -> Answer
    ensures { result ≡ find_word_with_answer table.now list.now spelling.now }
{
    lent_tables::find_word_with(table, list, spelling)
}

// Makes a word list of a plain text, whose words are folded by the lent table: the list to the front
// of one slice, and the rank of each word of the text to the front of the other. It gives how many
// elements of each it has written. Refusals 18, then 2, 17 and 5, leave both slices as they were.
pub fn concordance_make_list_with(
    table: &[u8],
    text: &[u8],
    list: &mut [u8],
    ranks: &mut [u32],
) -> ListMade
    ensures { (result ≡ list_made_with table.now text.now list.old ranks.old) × (list.new ≡ make_list_with_exit table.now text.now list.old ranks.old) × (ranks.new ≡ make_ranks_with_exit table.now text.now list.old ranks.old) }
{
    lent_tables::make_list_with(table, text, list, ranks)
}
