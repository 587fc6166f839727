// Whether four slices are the index of some text, over the number s of closing byte values.
//
// The entry is `check`, with 128 closing values. The other functions require what their callers have
// tested and are no entries.
#![tactic(auto)]

ghost use Rattle.std.specs.Prelude.{◌≡◌, ◌<◌, eqb, length};
ghost use Rattle.base.specs.Lists.{Below, total};
ghost use Rattle.base.specs.Outcomes.{test_answer};
ghost use Rattle.dense.specs.Code.{Closing};
ghost use Rattle.starts.specs.Starts.{max_starts};
ghost use Rattle.index.specs.Arrays.{arrays, passes as arraysPass};
ghost use Rattle.index.specs.Entries.{check_answer};
ghost use Rattle.index.specs.Exact.{WithinLimits};
ghost use Rattle.index.specs.Lent.{slices_of};

use base::Answer;
use base::refusal::{Refusal, Refused};
use directory::CountedBytes;
use index::{LentIndex, Shape};

// The sum of the node lengths.
pub fn total_length(lengths: &[u32]) -> usize
    requires { length lengths.now < max_starts }
    ensures { result ≡ total lengths.now }
{
    lengths.iter().map(|length| *length as usize).sum()
}

// Whether the node lengths add up to the number of bytes. The second clause is what the type of the
// bytes says, which a proof does not see of a slice in a struct.
fn add_up(lengths: &[u32], bytes: &[u8]) -> bool
    requires { length lengths.now < max_starts }
    ensures whole { result ≡ eqb (total lengths.now) (length bytes.now) }
    ensures elements { Below 256 bytes.now }
{
    total_length(lengths) == bytes.len()
}

// Whether the four slices are the index of some text of the vocabulary.
pub fn passes(index: &LentIndex) -> bool
    requires { Closing index.now.s × WithinLimits index.now.s index.now.shape }
    ensures { result ≡ arraysPass index.now.s index.now.shape (slices_of index.now) }
{
    let LentIndex {
        s,
        shape,
        lengths,
        bytes,
        superblocks,
        blocks,
    } = *index;
    if lengths.len() != tree::node_count(s, shape.vocabulary) {
        return false;
    }
    if base::MAX_BYTES < bytes.len() {
        return false;
    }
    if !add_up(lengths, bytes) {
        return false;
    }
    if base::MAX_WORDS < lengths[0] as usize {
        return false;
    }
    let block = shape.block;
    let per = shape.per_superblock;
    if !counter_checks::verify(bytes, superblocks, blocks, block, per) {
        return false;
    }
    let counted = CountedBytes {
        bytes,
        superblocks,
        blocks,
        block,
        per,
    };
    node_checks::nodes_pass(index, &counted)
}

// Checks an index with s closing values: the answer is that of paper 01.
pub fn check_of(index: &LentIndex) -> Result<(), Refused>
    requires { Closing index.now.s }
    ensures { test_answer result ≡ check_answer index.now.s index.now.shape (slices_of index.now) }
{
    index::check_limits(index.s, index.shape)?;
    if !passes(index) {
        return Err(Refusal::Index.into());
    }
    Ok(())
}

// Checks an index of the published code: 0 is answered exactly if some text of the vocabulary has
// the four slices as its index. Refusals 1, 3 and 6.
pub fn check(
    shape: Shape,
    lengths: &[u32],
    bytes: &[u8],
    superblocks: &[u32],
    blocks: &[u16],
) -> Answer
    ensures { result ≡ check_answer 128 shape (arrays lengths.now bytes.now superblocks.now blocks.now) }
{
    let index = LentIndex {
        s: dense::CLOSING,
        shape,
        lengths,
        bytes,
        superblocks,
        blocks,
    };
    check_of(&index).into()
}
