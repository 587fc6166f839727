// Building the index of a text in lent slices, over the number s of closing byte values.
//
// The entries are `build` and `build_sized`, with 128 closing values.
#![tactic(auto)]

ghost use Rattle.std.specs.Prelude.{◌≡◌, ◌≤◌, length};
ghost use Rattle.base.specs.Outcomes.{answer_of};
ghost use Rattle.dense.specs.Code.{Closing};
ghost use Rattle.dense.specs.Streams.{stream};
ghost use Rattle.index.specs.Arrays.{arrays};
ghost use Rattle.index.specs.Entries.{build_answer, build_exit};
ghost use Rattle.index.specs.Exact.{WithinLimits, IsText};
ghost use Rattle.measuring.specs.Sizes.{build_sized_answer, build_sized_exit};

use base::Answer;
use base::refusal::{Refusal, Refused};
use index::Shape;
use measuring::IndexSizes;

// Builds the index of a text that is measured, which needs so many bytes.
fn build_measured(
    s: usize,
    shape: Shape,
    text: &[u32],
    needed: usize,
    lengths: &mut [u32],
    bytes: &mut [u8],
    superblocks: &mut [u32],
    blocks: &mut [u16],
) -> Result<usize, Refused>
    requires text { Closing s × WithinLimits s shape × IsText shape.vocabulary text.now }
    requires bytes { needed ≡ length (stream s text.now) }
    ensures answered { answer_of result ≡ build_answer s shape text.now (arrays lengths.old bytes.old superblocks.old blocks.old) }
    ensures filled { arrays lengths.new bytes.new superblocks.new blocks.new
        ≡ build_exit s shape text.now (arrays lengths.old bytes.old superblocks.old blocks.old) }
{
    if writing::too_short(s, shape, needed, lengths, bytes, superblocks, blocks) {
        return Err(Refusal::ShortSlice.into());
    }
    writing::write_index(s, shape, text, needed, lengths, bytes, superblocks, blocks);
    Ok(needed)
}

// Builds the index of a text with s closing values: it is measured, and then built. The answer and
// the slices are those of paper 01.
pub fn build_of(
    s: usize,
    shape: Shape,
    text: &[u32],
    lengths: &mut [u32],
    bytes: &mut [u8],
    superblocks: &mut [u32],
    blocks: &mut [u16],
) -> Result<usize, Refused>
    requires { Closing s }
    ensures answered { answer_of result ≡ build_answer s shape text.now (arrays lengths.old bytes.old superblocks.old blocks.old) }
    ensures filled { arrays lengths.new bytes.new superblocks.new blocks.new
        ≡ build_exit s shape text.now (arrays lengths.old bytes.old superblocks.old blocks.old) }
{
    let needed = measuring::measure_of(s, shape, text)?.bytes;
    build_measured(s, shape, text, needed, lengths, bytes, superblocks, blocks)
}

// Builds the index of a text with s closing values and sizes that are handed back: the answer and
// the slices are those of paper 02. The sizes are compared with those of the text, and nothing is
// computed with them.
pub fn build_sized_of(
    s: usize,
    shape: Shape,
    sizes: IndexSizes,
    text: &[u32],
    lengths: &mut [u32],
    bytes: &mut [u8],
    superblocks: &mut [u32],
    blocks: &mut [u16],
) -> Result<usize, Refused>
    requires { Closing s }
    ensures answered { answer_of result ≡ build_sized_answer s shape sizes text.now (arrays lengths.old bytes.old superblocks.old blocks.old) }
    ensures filled { arrays lengths.new bytes.new superblocks.new blocks.new
        ≡ build_sized_exit s shape sizes text.now (arrays lengths.old bytes.old superblocks.old blocks.old) }
{
    let measured = measuring::measure_of(s, shape, text)?;
    if !measuring::same_sizes(sizes, measured) {
        return Err(Refusal::Sizes.into());
    }
    build_measured(
        s,
        shape,
        text,
        measured.bytes,
        lengths,
        bytes,
        superblocks,
        blocks,
    )
}

// Builds the index of a text of the published code in front of the four slices, and answers the
// number of node bytes. Refusals 1, 2, 3, 4 with the first place whose rank is not below the
// vocabulary's size, and 5 leave the slices as they were.
pub fn build(
    shape: Shape,
    text: &[u32],
    lengths: &mut [u32],
    bytes: &mut [u8],
    superblocks: &mut [u32],
    blocks: &mut [u16],
) -> Answer
    ensures answered { result ≡ build_answer 128 shape text.now (arrays lengths.old bytes.old superblocks.old blocks.old) }
    ensures filled { arrays lengths.new bytes.new superblocks.new blocks.new
        ≡ build_exit 128 shape text.now (arrays lengths.old bytes.old superblocks.old blocks.old) }
{
    build_of(
        dense::CLOSING,
        shape,
        text,
        lengths,
        bytes,
        superblocks,
        blocks,
    )
    .into()
}

// Builds the index of a text of the published code with the four sizes that measuring gave, in front
// of the four slices, and answers the number of node bytes. Refusals 1, 2, 3, 4 with the first place
// whose rank is not below the vocabulary's size, 16 if the sizes are not those of the text, and 5
// leave the slices as they were.
pub fn build_sized(
    shape: Shape,
    sizes: IndexSizes,
    text: &[u32],
    lengths: &mut [u32],
    bytes: &mut [u8],
    superblocks: &mut [u32],
    blocks: &mut [u16],
) -> Answer
    ensures answered { result ≡ build_sized_answer 128 shape sizes text.now (arrays lengths.old bytes.old superblocks.old blocks.old) }
    ensures filled { arrays lengths.new bytes.new superblocks.new blocks.new
        ≡ build_sized_exit 128 shape sizes text.now (arrays lengths.old bytes.old superblocks.old blocks.old) }
{
    build_sized_of(
        dense::CLOSING,
        shape,
        sizes,
        text,
        lengths,
        bytes,
        superblocks,
        blocks,
    )
    .into()
}
