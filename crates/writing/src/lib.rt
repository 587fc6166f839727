// The index of a text written to the fronts of lent slices, and whether these are long enough.
// Inner functions: their callers have tested the text and the sizes.
#![tactic(auto)]

ghost use Rattle.std.specs.Prelude.{◌≡◌, ◌≤◌, length};
ghost use Rattle.dense.specs.Code.{Closing};
ghost use Rattle.dense.specs.Streams.{stream};
ghost use Rattle.directory.specs.Counters.{max_bytes};
ghost use Rattle.index.specs.Arrays.{arrays, index_of};
ghost use Rattle.index.specs.Exact.{WithinLimits};
ghost use Rattle.writing.specs.Slices.{too_short, Buildable, fronts};

use index::Shape;

// Whether one of the slices is too short for an index of so many bytes.
#[tactic(auto, unfolding(crate::specs::Slices::too_short))]
pub fn too_short(
    s: usize,
    shape: Shape,
    needed: usize,
    lengths: &[u32],
    bytes: &[u8],
    superblocks: &[u32],
    blocks: &[u16],
) -> bool
    requires { Closing s × WithinLimits s shape × (needed ≤ max_bytes) }
    ensures { result ≡ too_short s shape needed (arrays lengths.now bytes.now superblocks.now blocks.now) }
{
    let nodes = tree::node_count(s, shape.vocabulary);
    let superblock_rows = tallies::row_count(needed, shape.block * shape.per_superblock);
    let block_rows = tallies::row_count(needed, shape.block);
    lengths.len() < nodes
        || bytes.len() < needed
        || superblocks.len() < superblock_rows * 256
        || blocks.len() < block_rows * 256
}

// Writes the index of a text to the fronts of the four slices; the rest stays. The slices are lent
// one by one: with them in a struct the proof did not close, since it knows no element of a field's
// slice once a part of that was lent to be read.
pub fn write_index(
    s: usize,
    shape: Shape,
    text: &[u32],
    needed: usize,
    lengths: &mut [u32],
    bytes: &mut [u8],
    superblocks: &mut [u32],
    blocks: &mut [u16],
)
    requires { Buildable s shape text.now (arrays lengths.old bytes.old superblocks.old blocks.old) × (needed ≡ length (stream s text.now)) }
    ensures { arrays lengths.new bytes.new superblocks.new blocks.new
        ≡ fronts (index_of s shape text.now) (arrays lengths.old bytes.old superblocks.old blocks.old) }
{
    let nodes = tree::node_count(s, shape.vocabulary);
    filling::write_nodes(s, text, &mut lengths[..nodes], &mut bytes[..needed]);
    counters::fill(
        &bytes[..needed],
        superblocks,
        blocks,
        shape.block,
        shape.per_superblock,
    );
}
