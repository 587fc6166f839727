// Measuring a text, over the number s of closing byte values: the sizes of its index, which are known
// before any memory is lent for it.
//
// The entry is `measure`, with 128 closing values.
#![tactic(auto)]

ghost use Rattle.std.specs.Prelude.{◌≡◌, suc, ◌*◌, ◌/◌, ◌≤◌, length};
ghost use Rattle.base.specs.Outcomes.{test_answer};
ghost use Rattle.base.specs.Texts.{max_words};
ghost use Rattle.dense.specs.Code.{Closing};
ghost use Rattle.directory.specs.Counters.{max_bytes};
ghost use Rattle.tree.specs.Nodes.{node_count};
ghost use Rattle.index.specs.Exact.{WithinLimits};
ghost use Rattle.measuring.specs.Sizes.{sizes, same_sizes, measured, measured_of};
ghost use Rattle.measuring.specs.Passes.{LimitsAnswer, PassOf};

use base::Answer;
use base::refusal::{Refusal, Refused};
use index::Shape;

// The sizes of an index: N, the number of its nodes; L, the number of its bytes; and how many
// superblock rows and block rows it has, of 256 counters each.
#[repr(C)]
#[derive(Clone, Copy, PartialEq, Eq, Default)]
pub struct IndexSizes {
    pub nodes: usize,
    pub bytes: usize,
    pub superblock_rows: usize,
    pub block_rows: usize,
}

// What measuring returns: its answer, and the sizes, four zeros where it is refused. The C interface
// has them in one struct.
#[repr(C)]
#[derive(Clone, Copy)]
pub struct Measured {
    pub answer: Answer,
    pub sizes: IndexSizes,
}

impl From<Result<IndexSizes, Refused>> for Measured {
    ghost from_gives = { λ outcome m. m ≡ measured outcome };

    fn from(outcome: Result<IndexSizes, Refused>) -> Measured {
        match outcome {
            Ok(sizes) => Measured {
                answer: Answer::accepted(0),
                sizes,
            },
            Err(refused) => Measured {
                answer: Answer {
                    refusal: refused.refusal.number(),
                    value: refused.at,
                },
                sizes: IndexSizes::default(),
            },
        }
    }
}

// Whether two times four sizes are the same.
#[tactic(auto, unfolding(crate::specs::Sizes::same_sizes))]
pub fn same_sizes(given: IndexSizes, own: IndexSizes) -> bool
    ensures { result ≡ same_sizes given own }
{
    given == own
}

// How many words are read for one test and then for the other, while they are in the cache.
const PART: usize = 2048;

// Passes over the ranks of a text once, part by part: the number of bytes of its stream, where no rank
// is outside the vocabulary.
fn pass_ranks(s: usize, vocabulary: usize, text: &[u32]) -> Result<usize, Refused>
    requires { Closing s × (length text.now ≤ max_words) }
    ensures { PassOf s vocabulary text.now result }
{
    let mut bytes = 0;
    let mut at = 0;
    for part in text.chunks(PART) {
        let place = base::first_outside(part, vocabulary);
        if place < part.len() {
            return Err(Refused {
                refusal: Refusal::TextRank,
                at: at + place,
            });
        }
        bytes += dense::stream_length(s, part);
        at += part.len();
    }
    Ok(bytes)
}

// Tests V, the number of words, and B and b, in this order.
fn check_limits(s: usize, shape: Shape, text: &[u32]) -> Result<(), Refused>
    requires { Closing s }
    ensures { LimitsAnswer s shape text.now (test_answer result) }
{
    index::check_vocabulary(s, shape)?;
    if base::MAX_WORDS < text.len() {
        return Err(Refusal::Words.into());
    }
    index::check_blocks(shape)?;
    Ok(())
}

// The sizes of an index of so many bytes.
fn sizes_for(s: usize, shape: Shape, bytes: usize) -> IndexSizes
    requires { Closing s × WithinLimits s shape × (bytes ≤ max_bytes) }
    ensures { result ≡ sizes (node_count s shape.vocabulary) bytes (suc (bytes / (shape.block * shape.per_superblock))) (suc (bytes / shape.block)) }
{
    let nodes = tree::node_count(s, shape.vocabulary);
    let superblock_rows = tallies::row_count(bytes, shape.block * shape.per_superblock);
    let block_rows = tallies::row_count(bytes, shape.block);
    IndexSizes {
        nodes,
        bytes,
        superblock_rows,
        block_rows,
    }
}

// Measures a text with s closing values: what it gives is as paper 02 says.
pub fn measure_of(s: usize, shape: Shape, text: &[u32]) -> Result<IndexSizes, Refused>
    requires { Closing s }
    ensures { measured result ≡ measured_of s shape text.now }
{
    check_limits(s, shape, text)?;
    let bytes = pass_ranks(s, shape.vocabulary, text)?;
    Ok(sizes_for(s, shape, bytes))
}

// Measures a text of the published code: the sizes of its index beside the answer 0. Refusals 1, 2,
// 3, and 4 with the first place whose rank is not below the vocabulary's size, have four zeros
// beside them.
pub fn measure(shape: Shape, text: &[u32]) -> Measured
    ensures { result ≡ measured_of 128 shape text.now }
{
    measure_of(dense::CLOSING, shape, text).into()
}
