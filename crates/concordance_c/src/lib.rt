// The static library of the engine: each function calls that of its name in `concordance`, under the
// same clauses, and is exported to C.
//
// `include/concordance.h` declares them. A slice passes as a pointer and a length, and the structs
// pass by value as C has them.
#![tactic(auto)]

ghost use Rattle.std.specs.Prelude.{◌≡◌, length};
ghost use Rattle.dense.specs.Streams.{write_stream_answer, write_stream_exit, read_stream_answer, read_stream_exit};
ghost use Rattle.index.specs.Arrays.{arrays, text_in};
ghost use Rattle.index.specs.Entries.{build_answer, build_exit, check_answer};
ghost use Rattle.measuring.specs.Sizes.{measured_of, build_sized_answer, build_sized_exit};
ghost use Rattle.documents.specs.Documents.{one_start};
ghost use Rattle.questions.specs.Answering.{ask_answer_in, ask_answer};
ghost use Rattle.questions.specs.Passages.{passage_answer, passage_exit};
ghost use Rattle.listing.specs.Paging.{opened, call_of, page_of};
ghost use Rattle.summaries.specs.Summaries.{summary_answer, summary_exit};
ghost use Rattle.lexicon.specs.Letters.{letters};
ghost use Rattle.lexicon.specs.Reading.{read_text_answer, read_text_exit};
ghost use Rattle.finding.specs.Finding.{find_word_answer};
ghost use Rattle.list_calls.specs.Making.{list_made, make_list_exit, make_ranks_exit};
ghost use Rattle.lexicon.specs.Tables.{table_answer};
ghost use Rattle.lent_tables.specs.Calls.{read_text_with_answer, read_text_with_exit, find_word_with_answer, list_made_with, make_list_with_exit, make_ranks_with_exit};
ghost use Rattle.sheet_calls.specs.Sheets.{sheet_answer, sheet_exit};

use base::Answer;
use index::Shape;
use list_calls::ListMade;
use listing::{Listing, Page};
use measuring::{IndexSizes, Measured};
use questions::Question;

#[unsafe(no_mangle)]
pub extern "C" fn concordance_write_stream(
    vocabulary: usize,
    text: &[u32],
    stream: &mut [u8],
) -> Answer
    ensures { (result ≡ write_stream_answer 128 vocabulary text.now stream.old) × (stream.new ≡ write_stream_exit 128 vocabulary text.now stream.old) }
{
    concordance::concordance_write_stream(vocabulary, text, stream)
}

#[unsafe(no_mangle)]
pub extern "C" fn concordance_read_stream(stream: &[u8], text: &mut [u32]) -> Answer
    ensures { (result ≡ read_stream_answer 128 stream.now text.old) × (text.new ≡ read_stream_exit 128 stream.now text.old) }
{
    concordance::concordance_read_stream(stream, text)
}

#[unsafe(no_mangle)]
pub extern "C" fn concordance_build(
    shape: Shape,
    text: &[u32],
    lengths: &mut [u32],
    bytes: &mut [u8],
    superblocks: &mut [u32],
    blocks: &mut [u16],
) -> Answer
    ensures answered { result ≡ build_answer 128 shape text.now (arrays lengths.old bytes.old superblocks.old blocks.old) }
    ensures filled { arrays lengths.new bytes.new superblocks.new blocks.new
        ≡ build_exit 128 shape text.now (arrays lengths.old bytes.old superblocks.old blocks.old) }
{
    concordance::concordance_build(shape, text, lengths, bytes, superblocks, blocks)
}

#[unsafe(no_mangle)]
pub extern "C" fn concordance_measure(shape: Shape, text: &[u32]) -> Measured
    ensures { result ≡ measured_of 128 shape text.now }
{
    concordance::concordance_measure(shape, text)
}

#[unsafe(no_mangle)]
pub extern "C" fn concordance_build_sized(
    shape: Shape,
    sizes: IndexSizes,
    text: &[u32],
    lengths: &mut [u32],
    bytes: &mut [u8],
    superblocks: &mut [u32],
    blocks: &mut [u16],
) -> Answer
    ensures answered { result ≡ build_sized_answer 128 shape sizes text.now (arrays lengths.old bytes.old superblocks.old blocks.old) }
    ensures filled { arrays lengths.new bytes.new superblocks.new blocks.new
        ≡ build_sized_exit 128 shape sizes text.now (arrays lengths.old bytes.old superblocks.old blocks.old) }
{
    concordance::concordance_build_sized(shape, sizes, text, lengths, bytes, superblocks, blocks)
}

#[unsafe(no_mangle)]
pub extern "C" fn concordance_check(
    shape: Shape,
    lengths: &[u32],
    bytes: &[u8],
    superblocks: &[u32],
    blocks: &[u16],
) -> Answer
    ensures { result ≡ check_answer 128 shape (arrays lengths.now bytes.now superblocks.now blocks.now) }
{
    concordance::concordance_check(shape, lengths, bytes, superblocks, blocks)
}

#[unsafe(no_mangle)]
pub extern "C" fn concordance_ask(
    shape: Shape,
    lengths: &[u32],
    bytes: &[u8],
    superblocks: &[u32],
    blocks: &[u16],
    words: &[u32],
    question: Question,
) -> Answer
    ensures { result ≡ ask_answer 128 shape (arrays lengths.now bytes.now superblocks.now blocks.now) words.now question }
{
    concordance::concordance_ask(shape, lengths, bytes, superblocks, blocks, words, question)
}

#[unsafe(no_mangle)]
pub extern "C" fn concordance_ask_in_documents(
    shape: Shape,
    lengths: &[u32],
    bytes: &[u8],
    superblocks: &[u32],
    blocks: &[u16],
    documents: &[u32],
    words: &[u32],
    question: Question,
) -> Answer
    ensures { result ≡ ask_answer_in 128 shape (arrays lengths.now bytes.now superblocks.now blocks.now) documents.now words.now question }
{
    concordance::concordance_ask_in_documents(
        shape,
        lengths,
        bytes,
        superblocks,
        blocks,
        documents,
        words,
        question,
    )
}

#[unsafe(no_mangle)]
pub extern "C" fn concordance_answer_sheet(
    shape: Shape,
    lengths: &[u32],
    bytes: &[u8],
    superblocks: &[u32],
    blocks: &[u16],
    words: &[u32],
    questions: &[Question],
    answers: &mut [u32],
) -> Answer
    ensures { (result ≡ sheet_answer 128 shape (arrays lengths.now bytes.now superblocks.now blocks.now) (one_start (length (text_in 128 (arrays lengths.now bytes.now superblocks.now blocks.now)))) (length questions.now) (length answers.old)) × (answers.new ≡ sheet_exit 128 shape (arrays lengths.now bytes.now superblocks.now blocks.now) (one_start (length (text_in 128 (arrays lengths.now bytes.now superblocks.now blocks.now)))) words.now questions.now answers.old) }
{
    concordance::concordance_answer_sheet(
        shape,
        lengths,
        bytes,
        superblocks,
        blocks,
        words,
        questions,
        answers,
    )
}

#[unsafe(no_mangle)]
pub extern "C" fn concordance_answer_sheet_in_documents(
    shape: Shape,
    lengths: &[u32],
    bytes: &[u8],
    superblocks: &[u32],
    blocks: &[u16],
    documents: &[u32],
    words: &[u32],
    questions: &[Question],
    answers: &mut [u32],
) -> Answer
    ensures { (result ≡ sheet_answer 128 shape (arrays lengths.now bytes.now superblocks.now blocks.now) documents.now (length questions.now) (length answers.old)) × (answers.new ≡ sheet_exit 128 shape (arrays lengths.now bytes.now superblocks.now blocks.now) documents.now words.now questions.now answers.old) }
{
    concordance::concordance_answer_sheet_in_documents(
        shape,
        lengths,
        bytes,
        superblocks,
        blocks,
        documents,
        words,
        questions,
        answers,
    )
}

#[unsafe(no_mangle)]
pub extern "C" fn concordance_passage(
    shape: Shape,
    lengths: &[u32],
    bytes: &[u8],
    superblocks: &[u32],
    blocks: &[u16],
    place: usize,
    passage: &mut [u32],
) -> Answer
    ensures { (result ≡ passage_answer 128 shape (arrays lengths.now bytes.now superblocks.now blocks.now) place passage.old) × (passage.new ≡ passage_exit 128 shape (arrays lengths.now bytes.now superblocks.now blocks.now) place passage.old) }
{
    concordance::concordance_passage(shape, lengths, bytes, superblocks, blocks, place, passage)
}

#[unsafe(no_mangle)]
pub extern "C" fn concordance_open() -> Listing
    ensures { result ≡ opened }
{
    concordance::concordance_open()
}

#[unsafe(no_mangle)]
pub extern "C" fn concordance_list(
    state: Listing,
    shape: Shape,
    lengths: &[u32],
    bytes: &[u8],
    superblocks: &[u32],
    blocks: &[u16],
    words: &[u32],
    start: usize,
    count: usize,
    lines: &mut [u32],
) -> Page
    ensures { (result ≡ (page_of (call_of 128 shape (arrays lengths.now bytes.now superblocks.now blocks.now) (one_start (length (text_in 128 (arrays lengths.now bytes.now superblocks.now blocks.now)))) words.now start count lines.old) state).page) × (lines.new ≡ (page_of (call_of 128 shape (arrays lengths.now bytes.now superblocks.now blocks.now) (one_start (length (text_in 128 (arrays lengths.now bytes.now superblocks.now blocks.now)))) words.now start count lines.old) state).lines) }
{
    concordance::concordance_list(
        state,
        shape,
        lengths,
        bytes,
        superblocks,
        blocks,
        words,
        start,
        count,
        lines,
    )
}

#[unsafe(no_mangle)]
pub extern "C" fn concordance_list_in_documents(
    state: Listing,
    shape: Shape,
    lengths: &[u32],
    bytes: &[u8],
    superblocks: &[u32],
    blocks: &[u16],
    documents: &[u32],
    words: &[u32],
    start: usize,
    count: usize,
    lines: &mut [u32],
) -> Page
    ensures { (result ≡ (page_of (call_of 128 shape (arrays lengths.now bytes.now superblocks.now blocks.now) documents.now words.now start count lines.old) state).page) × (lines.new ≡ (page_of (call_of 128 shape (arrays lengths.now bytes.now superblocks.now blocks.now) documents.now words.now start count lines.old) state).lines) }
{
    concordance::concordance_list_in_documents(
        state,
        shape,
        lengths,
        bytes,
        superblocks,
        blocks,
        documents,
        words,
        start,
        count,
        lines,
    )
}

#[unsafe(no_mangle)]
pub extern "C" fn concordance_summary(
    shape: Shape,
    lengths: &[u32],
    bytes: &[u8],
    superblocks: &[u32],
    blocks: &[u16],
    documents: &[u32],
    words: &[u32],
    start: usize,
    count: usize,
    counts: &mut [u32],
) -> Answer
    ensures { (result ≡ summary_answer 128 shape (arrays lengths.now bytes.now superblocks.now blocks.now) documents.now words.now start count (length counts.old)) × (counts.new ≡ summary_exit 128 shape (arrays lengths.now bytes.now superblocks.now blocks.now) documents.now words.now start count counts.old) }
{
    concordance::concordance_summary(
        shape,
        lengths,
        bytes,
        superblocks,
        blocks,
        documents,
        words,
        start,
        count,
        counts,
    )
}

#[unsafe(no_mangle)]
pub extern "C" fn concordance_read_text(list: &[u8], text: &[u8], ranks: &mut [u32]) -> Answer
    ensures { (result ≡ read_text_answer letters list.now text.now ranks.old) × (ranks.new ≡ read_text_exit letters list.now text.now ranks.old) }
{
    concordance::concordance_read_text(list, text, ranks)
}

#[unsafe(no_mangle)]
pub extern "C" fn concordance_find_word(list: &[u8], spelling: &[u8]) -> Answer
    ensures { result ≡ find_word_answer letters list.now spelling.now }
{
    concordance::concordance_find_word(list, spelling)
}

#[unsafe(no_mangle)]
pub extern "C" fn concordance_make_list(text: &[u8], list: &mut [u8], ranks: &mut [u32]) -> ListMade
    ensures { (result ≡ list_made letters text.now list.old ranks.old) × (list.new ≡ make_list_exit letters text.now list.old ranks.old) × (ranks.new ≡ make_ranks_exit letters text.now list.old ranks.old) }
{
    concordance::concordance_make_list(text, list, ranks)
}

#[unsafe(no_mangle)]
pub extern "C" fn concordance_check_letters(table: &[u8]) -> Answer
    ensures { result ≡ table_answer table.now }
{
    concordance::concordance_check_letters(table)
}

#[unsafe(no_mangle)]
pub extern "C" fn concordance_read_text_with(
    table: &[u8],
    list: &[u8],
    text: &[u8],
    ranks: &mut [u32],
) -> Answer
    ensures { (result ≡ read_text_with_answer table.now list.now text.now ranks.old) × (ranks.new ≡ read_text_with_exit table.now list.now text.now ranks.old) }
{
    concordance::concordance_read_text_with(table, list, text, ranks)
}

#[unsafe(no_mangle)]
pub extern "C" fn concordance_find_word_with(table: &[u8], list: &[u8], spelling: &[u8]) -> Answer
    ensures { result ≡ find_word_with_answer table.now list.now spelling.now }
{
    concordance::concordance_find_word_with(table, list, spelling)
}

#[unsafe(no_mangle)]
pub extern "C" fn concordance_make_list_with(
    table: &[u8],
    text: &[u8],
    list: &mut [u8],
    ranks: &mut [u32],
) -> ListMade
    ensures { (result ≡ list_made_with table.now text.now list.old ranks.old) × (list.new ≡ make_list_with_exit table.now text.now list.old ranks.old) × (ranks.new ≡ make_ranks_with_exit table.now text.now list.old ranks.old) }
{
    concordance::concordance_make_list_with(table, text, list, ranks)
}
