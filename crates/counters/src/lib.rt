// The directory of bytes filled, in one pass over the bytes: the bytes of a block are counted, then
// its 256 counters are written. Inner functions: their callers have checked the sizes.
#![tactic(auto)]

ghost use Rattle.std.specs.Prelude.{◌≡◌, ◌+◌, ◌*◌, ◌/◌, ◌≤◌, suc, length};
ghost use Rattle.std.proofs.Math.Seq.{paste};
ghost use Rattle.base.specs.Lists.{Below};
ghost use Rattle.base.specs.Answers.{front};
ghost use Rattle.directory.specs.Counters.{superblock_row, block_row, superblock_rows, block_rows, Sizes};
ghost use Rattle.directory.specs.Tables.{first_rows};
ghost use Rattle.tallies.specs.Tallies.{counters, rows_end, Reached};

// Writes 256 totals as a superblock row; the rest stays.
fn put_superblock(superblocks: &mut [u32], row: usize, totals: &[u32; 256])
    requires { ((row + 1) * 256 ≤ length superblocks.old) × (length totals.now ≡ 256) }
    ensures { superblocks.new ≡ paste superblocks.old (row * 256) totals.now 256 }
{
    let at = row * 256;
    superblocks[at..at + 256].copy_from_slice(totals);
}

// Writes 256 counters as a block row; the rest stays.
fn put_block(blocks: &mut [u16], row: usize, lanes: &[u16; 512])
    requires { ((row + 1) * 256 ≤ length blocks.old) × Below 65536 (counters lanes.now) }
    ensures { blocks.new ≡ paste blocks.old (row * 256) (counters lanes.now) 256 }
{
    let at = row * 256;
    for x in 0..256usize {
        blocks[at + x] = lanes[x] + lanes[256 + x];
    }
}

// Writes the block rows of a superblock behind those before it, where the rest stays, and makes the
// totals those of the next superblock.
fn fill_superblock(
    bytes: &[u8],
    blocks: &mut [u16],
    totals: &mut [u32; 256],
    block: usize,
    per: usize,
    superblock: usize,
)
    requires { Sizes block per bytes.now × Reached block per bytes.now blocks.old totals.old superblock × (suc (length bytes.now / block) * 256 ≤ length blocks.old) }
    ensures { (blocks.new ≡ front (first_rows (block_row block per bytes.now) (rows_end block per (length bytes.now) superblock)) blocks.old)
        × (totals.new ≡ superblock_row block per bytes.now (superblock + 1)) }
{
    let mut lanes = [0u16; 512];
    let first = superblock * per;
    let end = tallies::rows_end(bytes.len(), block, per, superblock);
    for row in first..end {
        put_block(blocks, row, &lanes);
        tallies::tally_block(bytes, block, row, &mut lanes);
    }
    tallies::add(totals, &lanes);
}

// Writes the directory of the bytes to the front of the two slices; the rest stays.
pub fn fill(bytes: &[u8], superblocks: &mut [u32], blocks: &mut [u16], block: usize, per: usize)
    requires { Sizes block per bytes.now × (length (superblock_rows block per bytes.now) ≤ length superblocks.old) × (length (block_rows block per bytes.now) ≤ length blocks.old) }
    ensures { (superblocks.new ≡ front (superblock_rows block per bytes.now) superblocks.old)
        × (blocks.new ≡ front (block_rows block per bytes.now) blocks.old) }
{
    let mut totals = [0u32; 256];
    let end = tallies::row_count(bytes.len(), block * per);
    for superblock in 0..end {
        put_superblock(superblocks, superblock, &totals);
        fill_superblock(bytes, blocks, &mut totals, block, per, superblock);
    }
}
