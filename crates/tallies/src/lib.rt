// The bytes of a block counted, 256 counters at a time, and how many rows a table of counters has.
// Inner functions: their callers have checked the sizes.
#![tactic(auto)]

ghost use Rattle.std.specs.Prelude.{◌≡◌, ◌+◌, ◌*◌, ◌/◌, ◌≤◌, suc, length};
ghost use Rattle.base.specs.Lists.{Below};
ghost use Rattle.base.specs.Texts.{max_superblock};
ghost use Rattle.directory.specs.Counters.{row as row_of, max_bytes};
ghost use Rattle.tallies.specs.Tallies.{sums, counters, block_bytes, rows_end};

// Adds to each of 256 counters how often its byte value stands in a part, neighbours in different
// lanes, so that a run of one value does not wait for its own last store.
fn tally(part: &[u8], lanes: &mut [u16; 512])
    requires { (length lanes.old ≡ 512) × Below 65536 (sums (counters lanes.old) (row_of part.now)) }
    ensures { (length lanes.new ≡ 512) × (counters lanes.new ≡ sums (counters lanes.old) (row_of part.now)) }
{
    for (i, byte) in part.iter().enumerate() {
        let at = i % 2 * 256 + usize::from(*byte);
        lanes[at] += 1;
    }
}

// Adds 256 counters to the totals.
pub fn add(totals: &mut [u32; 256], lanes: &[u16; 512])
    requires { (length totals.old ≡ 256) × Below 65536 (counters lanes.now) × Below 4294967296 (sums totals.old (counters lanes.now)) }
    ensures { totals.new ≡ sums totals.old (counters lanes.now) }
{
    for (x, total) in totals.iter_mut().enumerate() {
        *total += u32::from(lanes[x] + lanes[256 + x]);
    }
}

// Adds to each of 256 counters how often its byte value stands in a block.
pub fn tally_block(bytes: &[u8], block: usize, row: usize, lanes: &mut [u16; 512])
    requires block_in_bounds { (row * block ≤ length bytes.now) × (length bytes.now ≤ max_bytes) × (block ≤ max_superblock) }
    requires lanes_len { (length lanes.old ≡ 512) × Below 65536 (sums (counters lanes.old) (row_of (block_bytes block bytes.now row))) }
    ensures { (length lanes.new ≡ 512) × (counters lanes.new ≡ sums (counters lanes.old) (row_of (block_bytes block bytes.now row))) }
{
    let from = row * block;
    let to = (from + block).min(bytes.len());
    tally(&bytes[from..to], lanes);
}

// How many rows a table has: one for each r with r × span at most the size.
pub fn row_count(size: usize, span: usize) -> usize
    requires { (1 ≤ span) × (size ≤ max_bytes) }
    ensures { result ≡ suc (size / span) }
{
    size / span + 1
}

// The first block row past a superblock, or past the last block row.
pub fn rows_end(size: usize, block: usize, per: usize, superblock: usize) -> usize
    requires { (1 ≤ block) × (size ≤ max_bytes) × (superblock * per + per ≤ max_bytes + max_superblock) }
    ensures { result ≡ rows_end block per size superblock }
{
    (superblock * per + per).min(row_count(size, block))
}
