// The bytes of an index with their directory.

ghost use Rattle.directory.specs.Counters.{Sizes, Directory};

// The bytes of an index, and the rows of their two-level directory: one of 256 numbers for each
// superblock, and one for each block. `block` is the block length, and `per` how many blocks a
// superblock has.
#[derive(Clone, Copy)]
pub struct CountedBytes<'a> {
    pub bytes: &'a [u8],
    pub superblocks: &'a [u32],
    pub blocks: &'a [u16],
    pub block: usize,
    pub per: usize,
    pub ghost sizes: { Sizes block per bytes.now },
    pub ghost directory: { Directory block per bytes.now superblocks.now blocks.now },
}
