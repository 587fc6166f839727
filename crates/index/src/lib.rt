// The index of a text: the node lengths, the node bytes and the counters of the bytes, over the
// number s of closing byte values. Its definitions are in `specs/`, its laws in `proofs/`; the crates
// `building` and `checking` have the calls.
#![tactic(auto)]

ghost use Rattle.std.specs.Prelude.{◌≡◌, true, false, MatchResult};
ghost use Rattle.base.specs.Outcomes.{number_of_test};
ghost use Rattle.base.specs.Texts.{outside};
ghost use Rattle.dense.specs.Code.{Closing, max_vocabulary};
ghost use Rattle.index.specs.Entries.{blocks_outside, limits_refusal};

use base::refusal::Refusal;

// The size of the vocabulary V, the block length B and the number b of blocks of a superblock.
#[repr(C)]
#[derive(Clone, Copy)]
pub struct Shape {
    pub vocabulary: usize,
    pub block: usize,
    pub per_superblock: usize,
}

// An index as it is lent, which may be of no text: the number s of closing byte values, its shape and
// its four slices.
#[derive(Clone, Copy)]
pub struct LentIndex<'a> {
    pub s: usize,
    pub shape: Shape,
    pub lengths: &'a [u32],
    pub bytes: &'a [u8],
    pub superblocks: &'a [u32],
    pub blocks: &'a [u16],
}

// Tests V.
pub fn check_vocabulary(s: usize, shape: Shape) -> Result<(), Refusal>
    requires { Closing s }
    ensures { MatchResult result
        (λ _. outside 1 (max_vocabulary s) shape.vocabulary ≡ false)
        (λ refusal. (refusal ≡ Refusal.Vocabulary) × (outside 1 (max_vocabulary s) shape.vocabulary ≡ true)) }
{
    if shape.vocabulary < 1 {
        return Err(Refusal::Vocabulary);
    }
    if dense::max_vocabulary(s) < shape.vocabulary {
        return Err(Refusal::Vocabulary);
    }
    Ok(())
}

// Tests B and b.
pub fn check_blocks(shape: Shape) -> Result<(), Refusal>
    ensures { MatchResult result
        (λ _. blocks_outside shape.block shape.per_superblock ≡ false)
        (λ refusal. (refusal ≡ Refusal.Blocks) × (blocks_outside shape.block shape.per_superblock ≡ true)) }
{
    if shape.block < 1 {
        return Err(Refusal::Blocks);
    }
    if shape.per_superblock < 1 {
        return Err(Refusal::Blocks);
    }
    if base::MAX_SUPERBLOCK / shape.block < shape.per_superblock {
        return Err(Refusal::Blocks);
    }
    Ok(())
}

// Tests V, B and b: the first of them that is outside its limits is refused.
pub fn check_limits(s: usize, shape: Shape) -> Result<(), Refusal>
    requires { Closing s }
    ensures { number_of_test result ≡ limits_refusal s shape }
{
    check_vocabulary(s, shape)?;
    check_blocks(shape)
}
