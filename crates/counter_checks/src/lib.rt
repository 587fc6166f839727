// The directory of bytes verified, in one pass over the bytes: the bytes of a block are counted, then
// its 256 counters are compared. Inner functions: their callers have checked the sizes.
#![tactic(auto)]

ghost use Rattle.std.specs.Prelude.{◌≡◌, ◌+◌, ◌*◌, ◌/◌, ◌≤◌, suc, length, take, drop};
ghost use Rattle.base.specs.Lists.{Below, same};
ghost use Rattle.directory.specs.Counters.{is_directory, Sizes};
ghost use Rattle.tallies.specs.Tallies.{counters, Reached, Passed};

// Whether a superblock row is 256 totals. No turn leaves the loop, so that many numbers are compared at
// once.
fn same_superblock(superblocks: &[u32], row: usize, totals: &[u32; 256]) -> bool
    requires { ((row + 1) * 256 ≤ length superblocks.now) × (length totals.now ≡ 256) }
    ensures { result ≡ same (take 256 (drop (row * 256) superblocks.now)) totals.now }
{
    let at = row * 256;
    let mut equal = true;
    for x in 0..256usize {
        equal &= superblocks[at + x] == totals[x];
    }
    equal
}

// Whether a block row is 256 counters. No turn leaves the loop, so that many numbers are compared at
// once.
fn same_block(blocks: &[u16], row: usize, lanes: &[u16; 512]) -> bool
    requires { ((row + 1) * 256 ≤ length blocks.now) × Below 65536 (counters lanes.now) }
    ensures { result ≡ same (take 256 (drop (row * 256) blocks.now)) (counters lanes.now) }
{
    let at = row * 256;
    let mut equal = true;
    for x in 0..256usize {
        equal &= blocks[at + x] == lanes[x] + lanes[256 + x];
    }
    equal
}

// Whether the block rows of a superblock are those of the bytes; if so, makes the totals those of
// the next superblock.
fn verify_superblock(
    bytes: &[u8],
    blocks: &[u16],
    totals: &mut [u32; 256],
    block: usize,
    per: usize,
    superblock: usize,
) -> bool
    requires { Sizes block per bytes.now × Reached block per bytes.now blocks.now totals.old superblock × (length blocks.now ≡ suc (length bytes.now / block) * 256) }
    ensures { Passed block per bytes.now blocks.now totals.new superblock result }
{
    let mut lanes = [0u16; 512];
    let first = superblock * per;
    let end = tallies::rows_end(bytes.len(), block, per, superblock);
    for row in first..end {
        if !same_block(blocks, row, &lanes) {
            return false;
        }
        tallies::tally_block(bytes, block, row, &mut lanes);
    }
    tallies::add(totals, &lanes);
    true
}

// Whether the two slices are the directory of the bytes, neither longer nor shorter.
pub fn verify(bytes: &[u8], superblocks: &[u32], blocks: &[u16], block: usize, per: usize) -> bool
    requires { Sizes block per bytes.now }
    ensures { result ≡ is_directory block per bytes.now superblocks.now blocks.now }
{
    let end = tallies::row_count(bytes.len(), block * per);
    if superblocks.len() != end * 256 {
        return false;
    }
    if blocks.len() != tallies::row_count(bytes.len(), block) * 256 {
        return false;
    }
    let mut totals = [0u32; 256];
    for superblock in 0..end {
        if !same_superblock(superblocks, superblock, &totals) {
            return false;
        }
        if !verify_superblock(bytes, blocks, &mut totals, block, per, superblock) {
            return false;
        }
    }
    true
}
