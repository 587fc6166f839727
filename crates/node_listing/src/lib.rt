// The listing of the nodes of a stream, as the printing program of paper 01 prints it.
//
// The entry is `write_listing`. The other functions require what their callers have tested and are
// no entries. Their arrays have the sizes of the limits below: the answers have no number for too
// little memory, so none is taken.
#![tactic(auto)]

ghost use Rattle.std.specs.Prelude.{◌≡◌, ◌≤◌, length};
ghost use Rattle.base.specs.Outcomes.{answer_of};
ghost use Rattle.formatting.specs.Writing.{Wrote};
ghost use Rattle.node_listing.specs.Listing.{vocabulary_of, max_stream_words, max_stream_vocabulary, index_listing, text_listing, listing};
ghost use Rattle.node_listing.specs.Calls.{max_listing, listing_answer, listing_exit};
ghost use Rattle.node_listing.specs.Outcomes.{Listed};

use base::Answer;
use base::refusal::{Refusal, Refused};
use index::Shape;

// The most bytes of a listing.
pub const MAX_LISTING: usize = 25788;

// The most bytes of a stream that is listed.
const MAX_STREAM: usize = 8192;

// The most words of such a stream.
const MAX_WORDS: usize = 4096;

// The largest vocabulary of such a stream.
const MAX_VOCABULARY: usize = 16512;

// One above the largest rank of a text; 1 where there is no word.
fn vocabulary_of(text: &[u32]) -> usize
    ensures { result ≡ vocabulary_of text.now }
{
    let largest = text.iter().map(|rank| *rank as usize).max().unwrap_or(0);
    largest + 1
}

// Writes the numbers and the nodes of a text to the front of a slice that is long enough, and returns
// how many bytes that takes. Its index has at most 129 nodes, 8,192 bytes, and 5 superblock rows and 33
// block rows of 256 counters each.
fn list_index(vocabulary: usize, text: &[u32], output: &mut [u8]) -> usize
    requires { (length text.now ≤ max_stream_words) × (vocabulary ≡ vocabulary_of text.now) × (vocabulary ≤ max_stream_vocabulary) × (max_listing ≤ length output.old) }
    ensures { Wrote (index_listing text.now) 0 output.old result output.new }
{
    let mut lengths = [0u32; 129];
    let mut bytes = [0u8; 8192];
    let mut superblocks = [0u32; 1280];
    let mut blocks = [0u16; 8448];
    let shape = Shape {
        vocabulary,
        block: 256,
        per_superblock: 8,
    };
    let built = building::build(
        shape,
        text,
        &mut lengths,
        &mut bytes,
        &mut superblocks,
        &mut blocks,
    );
    let nodes = tree::node_count(dense::CLOSING, vocabulary);
    let total = built.value;
    let next = node_lines::write_counts(text.len(), nodes, total, output);
    node_lines::write_nodes(&lengths[..nodes], &bytes[..total], output, next)
}

// Writes the listing of a text so; refusal 1 if V is too large.
fn list_text(text: &[u32], output: &mut [u8]) -> Result<usize, Refusal>
    requires { (length text.now ≤ max_stream_words) × (max_listing ≤ length output.old) }
    ensures { Listed (text_listing text.now) output.old result output.new }
{
    let vocabulary = vocabulary_of(text);
    if MAX_VOCABULARY < vocabulary {
        return Err(Refusal::Vocabulary);
    }
    Ok(list_index(vocabulary, text, output))
}

// Writes the listing of a stream so: refusal 2 if it has too many bytes or words, then refusal 15 if it
// is broken. Reading refuses more words than there is room for before it looks for a broken codeword.
fn list_stream(stream: &[u8], output: &mut [u8]) -> Result<usize, Refusal>
    requires { max_listing ≤ length output.old }
    ensures { Listed (listing stream.now) output.old result output.new }
{
    if MAX_STREAM < stream.len() {
        return Err(Refusal::Words);
    }
    let mut text = [0u32; MAX_WORDS];
    let read = dense::read_stream(stream, &mut text);
    // `read_stream` is an entry, which answers with the refusal's number.
    if read.refusal == Refusal::Stream.number() {
        return Err(Refusal::Stream);
    }
    if read.refusal != 0 {
        return Err(Refusal::Words);
    }
    let words = read.value;
    list_text(&text[..words], output)
}

// Writes the listing of a stream so, or the line of its refusal.
fn print_stream(stream: &[u8], output: &mut [u8]) -> usize
    requires { max_listing ≤ length output.old }
    ensures { Wrote (listing stream.now) 0 output.old result output.new }
{
    match list_stream(stream, output) {
        Ok(count) => count,
        Err(refusal) => node_lines::write_refusal(refusal.number(), output),
    }
}

// Writes to the front of a slice what the program prints for a stream, and gives the number of bytes.
// Refusal 5, where the slice is shorter than that, leaves it as it was.
fn written(stream: &[u8], output: &mut [u8]) -> Result<usize, Refused>
    ensures { (answer_of result ≡ listing_answer stream.now output.old) × (output.new ≡ listing_exit stream.now output.old) }
{
    let mut listing = [0u8; MAX_LISTING];
    let count = print_stream(stream, &mut listing);
    if output.len() < count {
        return Err(Refusal::ShortSlice.into());
    }
    formatting::write_words(&listing[..count], output, 0);
    Ok(count)
}

// The same as a call that answers.
pub fn write_listing(stream: &[u8], output: &mut [u8]) -> Answer
    ensures { (result ≡ listing_answer stream.now output.old) × (output.new ≡ listing_exit stream.now output.old) }
{
    written(stream, output).into()
}
