// Indexes of small texts, held by value, for the programs that try the entries: each is built once
// and is then checked, asked and listed, whole or damaged.
#![tactic(auto)]

ghost use Rattle.std.specs.Prelude.{◌≡◌, length};
ghost use Rattle.index.specs.Arrays.{shape_of, text_in};
ghost use Rattle.index.specs.Entries.{check_answer};
ghost use Rattle.documents.specs.Documents.{one_start};
ghost use Rattle.questions.specs.Answering.{ask_answer_in, ask_answer};
ghost use Rattle.questions.specs.Passages.{passage_answer, passage_exit};
ghost use Rattle.listing.specs.Paging.{call_of, page_of};
ghost use Rattle.summaries.specs.Summaries.{summary_answer, summary_exit};
ghost use Rattle.small_indexes.specs.Lent.{lent, lent_sizes, lent_arrays, built_index, reshaped, resized};

use base::Answer;
use index::Shape;
use listing::{Listing, Page};
use questions::Question;

// How many elements of each array are lent.
#[derive(Clone, Copy)]
pub struct LentSizes {
    pub nodes: usize,
    pub bytes: usize,
    pub superblocks: usize,
    pub blocks: usize,
}

// An index as it is lent to a call: the four arrays, how many elements from the front of each, V, B
// and b; beside it the answer of building it. There is room for one node more than the largest
// vocabulary has, 20 bytes, and ten rows of counters of each kind.
#[derive(Clone, Copy)]
pub struct SmallIndex {
    pub lengths: [u32; 16514],
    pub bytes: [u8; 20],
    pub superblocks: [u32; 2560],
    pub blocks: [u16; 2560],
    pub sizes: LentSizes,
    pub shape: Shape,
    pub answer: Answer,
}

// The parameters V, B and b of an index.
pub fn shape_of(vocabulary: usize, block: usize, per_superblock: usize) -> Shape
    ensures { result ≡ shape_of vocabulary block per_superblock }
{
    Shape {
        vocabulary,
        block,
        per_superblock,
    }
}

// How many elements of each array are lent.
pub fn lent_sizes(nodes: usize, bytes: usize, superblocks: usize, blocks: usize) -> LentSizes
    ensures { result ≡ lent_sizes nodes bytes superblocks blocks }
{
    LentSizes {
        nodes,
        bytes,
        superblocks,
        blocks,
    }
}

// The first n elements of a slice, or all where it has fewer.
pub fn front(numbers: &[u32], n: usize) -> &[u32]
    ensures { result.now ≡ lent n numbers.now }
{
    let count = base::least(n, numbers.len());
    &numbers[..count]
}

// The same of bytes.
pub fn front_bytes(bytes: &[u8], n: usize) -> &[u8]
    ensures { result.now ≡ lent n bytes.now }
{
    let count = base::least(n, bytes.len());
    &bytes[..count]
}

// The same of block counters.
fn front_blocks(counters: &[u16], n: usize) -> &[u16]
    ensures { result.now ≡ lent n counters.now }
{
    let count = base::least(n, counters.len());
    &counters[..count]
}

impl SmallIndex {
    // Builds the index of a text in arrays that hold nothing but 7, to be lent in these sizes.
    pub fn built(shape: Shape, text: &[u32], sizes: LentSizes) -> SmallIndex
        ensures { result ≡ built_index shape text.now sizes }
    {
        let mut lengths = [7u32; 16514];
        let mut bytes = [7u8; 20];
        let mut superblocks = [7u32; 2560];
        let mut blocks = [7u16; 2560];
        let answer = building::build(
            shape,
            text,
            &mut lengths,
            &mut bytes,
            &mut superblocks,
            &mut blocks,
        );
        SmallIndex {
            lengths,
            bytes,
            superblocks,
            blocks,
            sizes,
            shape,
            answer,
        }
    }

    // Builds the index of a text with B 256 and b 8, so that it has one row of counters of each kind.
    pub fn of(vocabulary: usize, text: &[u32], nodes: usize, bytes: usize) -> SmallIndex
        ensures { result ≡ built_index (shape_of vocabulary 256 8) text.now (lent_sizes nodes bytes 256 256) }
    {
        SmallIndex::built(
            shape_of(vocabulary, 256, 8),
            text,
            lent_sizes(nodes, bytes, 256, 256),
        )
    }

    // The same arrays with another V, B and b.
    pub fn with_shape(mut self, vocabulary: usize, block: usize, per: usize) -> SmallIndex
        ensures { result ≡ reshaped (shape_of vocabulary block per) self }
    {
        self.shape = shape_of(vocabulary, block, per);
        self
    }

    // The same arrays in other sizes.
    pub fn with_sizes(
        mut self,
        nodes: usize,
        bytes: usize,
        upper: usize,
        lower: usize,
    ) -> SmallIndex
        ensures { result ≡ resized (lent_sizes nodes bytes upper lower) self }
    {
        self.sizes = lent_sizes(nodes, bytes, upper, lower);
        self
    }

    // Checks the index.
    pub fn check(self) -> Answer
        ensures { result ≡ check_answer 128 self.shape (lent_arrays self) }
    {
        let lengths = self.lengths;
        let bytes = self.bytes;
        let superblocks = self.superblocks;
        let blocks = self.blocks;
        checking::check(
            self.shape,
            front(&lengths, self.sizes.nodes),
            front_bytes(&bytes, self.sizes.bytes),
            front(&superblocks, self.sizes.superblocks),
            front_blocks(&blocks, self.sizes.blocks),
        )
    }

    // Asks a question of the index.
    pub fn ask(self, words: &[u32], question: Question) -> Answer
        ensures { result ≡ ask_answer 128 self.shape (lent_arrays self) words.now question }
    {
        let lengths = self.lengths;
        let bytes = self.bytes;
        let superblocks = self.superblocks;
        let blocks = self.blocks;
        asking::ask(
            self.shape,
            front(&lengths, self.sizes.nodes),
            front_bytes(&bytes, self.sizes.bytes),
            front(&superblocks, self.sizes.superblocks),
            front_blocks(&blocks, self.sizes.blocks),
            words,
            question,
        )
    }

    // Asks a question of the index with document starts.
    pub fn ask_in_documents(self, documents: &[u32], words: &[u32], question: Question) -> Answer
        ensures { result ≡ ask_answer_in 128 self.shape (lent_arrays self) documents.now words.now question }
    {
        let lengths = self.lengths;
        let bytes = self.bytes;
        let superblocks = self.superblocks;
        let blocks = self.blocks;
        asking::ask_in_documents(
            self.shape,
            front(&lengths, self.sizes.nodes),
            front_bytes(&bytes, self.sizes.bytes),
            front(&superblocks, self.sizes.superblocks),
            front_blocks(&blocks, self.sizes.blocks),
            documents,
            words,
            question,
        )
    }

    // Counts a phrase in each document.
    pub fn summary(
        self,
        documents: &[u32],
        words: &[u32],
        start: usize,
        count: usize,
        counts: &mut [u32],
    ) -> Answer
        ensures answered { result ≡ summary_answer 128 self.shape (lent_arrays self) documents.now words.now start count (length counts.old) }
        ensures counted { counts.new ≡ summary_exit 128 self.shape (lent_arrays self) documents.now words.now start count counts.old }
    {
        let lengths = self.lengths;
        let bytes = self.bytes;
        let superblocks = self.superblocks;
        let blocks = self.blocks;
        summaries::summary(
            self.shape,
            front(&lengths, self.sizes.nodes),
            front_bytes(&bytes, self.sizes.bytes),
            front(&superblocks, self.sizes.superblocks),
            front_blocks(&blocks, self.sizes.blocks),
            documents,
            words,
            start,
            count,
            counts,
        )
    }

    // Reads a passage of the index.
    pub fn passage(self, place: usize, ranks: &mut [u32]) -> Answer
        ensures answered { result ≡ passage_answer 128 self.shape (lent_arrays self) place ranks.old }
        ensures read { ranks.new ≡ passage_exit 128 self.shape (lent_arrays self) place ranks.old }
    {
        let lengths = self.lengths;
        let bytes = self.bytes;
        let superblocks = self.superblocks;
        let blocks = self.blocks;
        asking::passage(
            self.shape,
            front(&lengths, self.sizes.nodes),
            front_bytes(&bytes, self.sizes.bytes),
            front(&superblocks, self.sizes.superblocks),
            front_blocks(&blocks, self.sizes.blocks),
            place,
            ranks,
        )
    }

    // Writes the next page of a listing of a phrase.
    pub fn page(
        self,
        state: Listing,
        words: &[u32],
        start: usize,
        count: usize,
        lines: &mut [u32],
    ) -> Page
        ensures returned { result ≡ (page_of (call_of 128 self.shape (lent_arrays self) (one_start (length (text_in 128 (lent_arrays self)))) words.now start count lines.old) state).page }
        ensures written { lines.new ≡ (page_of (call_of 128 self.shape (lent_arrays self) (one_start (length (text_in 128 (lent_arrays self)))) words.now start count lines.old) state).lines }
    {
        let lengths = self.lengths;
        let bytes = self.bytes;
        let superblocks = self.superblocks;
        let blocks = self.blocks;
        state.page(
            self.shape,
            front(&lengths, self.sizes.nodes),
            front_bytes(&bytes, self.sizes.bytes),
            front(&superblocks, self.sizes.superblocks),
            front_blocks(&blocks, self.sizes.blocks),
            words,
            start,
            count,
            lines,
        )
    }

    // Writes the next page of a listing of a phrase inside documents.
    pub fn page_in_documents(
        self,
        state: Listing,
        documents: &[u32],
        words: &[u32],
        start: usize,
        count: usize,
        lines: &mut [u32],
    ) -> Page
        ensures returned { result ≡ (page_of (call_of 128 self.shape (lent_arrays self) documents.now words.now start count lines.old) state).page }
        ensures written { lines.new ≡ (page_of (call_of 128 self.shape (lent_arrays self) documents.now words.now start count lines.old) state).lines }
    {
        let lengths = self.lengths;
        let bytes = self.bytes;
        let superblocks = self.superblocks;
        let blocks = self.blocks;
        state.page_in_documents(
            self.shape,
            front(&lengths, self.sizes.nodes),
            front_bytes(&bytes, self.sizes.bytes),
            front(&superblocks, self.sizes.superblocks),
            front_blocks(&blocks, self.sizes.blocks),
            documents,
            words,
            start,
            count,
            lines,
        )
    }
}
