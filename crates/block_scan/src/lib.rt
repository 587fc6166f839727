// The scan of one block for the occurrence of a byte that has j others before it. It ends at the
// occurrence: the bytes from the block's start through it are read, each once, and no other. Every
// byte of a block is read by `read_byte`, which may not be called past the occurrence and counts the
// byte that it reads.
#![tactic(auto)]

ghost use Rattle.std.specs.Prelude.{◌≡◌, suc, ◌+◌, ◌≤◌, ◌<◌, length, take};
ghost use Rattle.std.specs.ControlFlow.{ForContinue};
ghost use Rattle.base.specs.Lists.{count_of, nth as nth_of};
ghost use Rattle.block_scan.specs.BlockScans.{scan_of, position_of, ReadSoFar, Looked, read_of};

use std::ops::ControlFlow;

// What a scan gives: where the occurrence stands in the block, and the number of bytes that were read.
#[derive(Clone, Copy)]
pub struct Scanned {
    pub stands: Option<usize>,
    pub read: usize,
}

// How far a scan has come: the number of bytes that were read, and how many others are left to pass
// before the occurrence.
#[derive(Clone, Copy)]
pub struct Progress {
    pub read: usize,
    pub left: usize,
}

// What was read of a piece: how often the byte stands there, and the number of bytes that were read
// with it.
#[derive(Clone, Copy)]
pub struct Piece {
    pub found: usize,
    pub read: usize,
}

// What a scan seeks: the occurrence of a byte in a block that has j others before it. The methods read
// on in the block, and give the number of bytes that were read: a `Break` where the last of them is the
// byte.
#[derive(Clone, Copy)]
struct Sought<'a> {
    block: &'a [u8],
    byte: u8,
    j: usize,
}

impl Sought<'_> {
    // Reads the next byte, which is not past the occurrence, and counts it.
    fn read_byte(&self, read: usize) -> ControlFlow<usize, usize>
        requires { (read < length self.now.block.now) × (read ≤ nth_of self.now.byte self.now.j self.now.block.now) }
        ensures { (read_of result ≡ suc read) × Looked self.now.byte read self.now.block.now result }
    {
        let through = read + 1;
        if self.block[read] == self.byte {
            ControlFlow::Break(through)
        } else {
            ControlFlow::Continue(through)
        }
    }

    // Reads a piece at once, which ends before the occurrence.
    fn read_piece(&self, from: usize, width: usize) -> Piece
        requires { (width ≤ 64) × (from + width ≤ nth_of self.now.byte self.now.j self.now.block.now) }
        ensures { (result.read ≡ from + width) × (count_of self.now.byte (take from self.now.block.now) + result.found ≡ count_of self.now.byte (take result.read self.now.block.now)) }
    {
        let mut found: u8 = 0;
        let mut read = from;
        for _ in 0..width {
            match self.read_byte(read) {
                ControlFlow::Break(through) => {
                    found += 1;
                    read = through;
                }
                ControlFlow::Continue(through) => read = through,
            }
        }
        Piece {
            found: usize::from(found),
            read,
        }
    }

    // Reads on by pieces of so many bytes, while as many others are left to pass: no such piece has the
    // occurrence.
    fn read_pieces(&self, width: usize, passed: Progress) -> Progress
        requires { (1 ≤ width) × (width ≤ 64) × ReadSoFar self.now.byte self.now.j self.now.block.now passed }
        ensures { ReadSoFar self.now.byte self.now.j self.now.block.now result }
    {
        let mut left = passed.left;
        let mut read = passed.read;
        while width <= left.min(self.block.len() - read) {
            let piece = self.read_piece(read, width);
            left -= piece.found;
            read = piece.read;
        }
        Progress { read, left }
    }

    // Reads eight bytes, or on to the next occurrence of the byte, which is not past the one sought.
    fn read_eight(&self, from: usize) -> ControlFlow<usize, usize>
        requires { (from + 8 ≤ length self.now.block.now) × (count_of self.now.byte (take from self.now.block.now) ≤ self.now.j) }
        ensures { Looked self.now.byte from self.now.block.now result × ForContinue result (λ read. read ≡ from + 8) }
    {
        let mut read = from;
        for _ in 0..8usize {
            read = self.read_byte(read)?;
        }
        ControlFlow::Continue(read)
    }

    // Reads on to the next occurrence of the byte, which is not past the one sought, or until fewer than
    // eight bytes are left: eight tests a turn.
    fn read_eights(&self, from: usize) -> ControlFlow<usize, usize>
        requires { (from ≤ length self.now.block.now) × (count_of self.now.byte (take from self.now.block.now) ≤ self.now.j) }
        ensures { Looked self.now.byte from self.now.block.now result }
    {
        let mut read = from;
        while 8 <= self.block.len() - read {
            read = self.read_eight(read)?;
        }
        ControlFlow::Continue(read)
    }

    // Reads on to the next occurrence of the byte, which is not past the one sought, or to the end of the
    // block; `read_byte` counts, and the loop does not.
    fn read_on(&self, from: usize) -> ControlFlow<usize, usize>
        requires { (from ≤ length self.now.block.now) × (count_of self.now.byte (take from self.now.block.now) ≤ self.now.j) }
        ensures { Looked self.now.byte from self.now.block.now result × ForContinue result (λ read. read ≡ length self.now.block.now) }
    {
        let mut read = self.read_eights(from)?;
        while read < self.block.len() {
            read = self.read_byte(read)?;
        }
        ControlFlow::Continue(read)
    }
}

// Scans a block for the occurrence of a byte that has j others before it: by pieces while many others
// are left to pass, and then from one occurrence to the next.
pub fn scan(block: &[u8], byte: u8, j: usize) -> Scanned
    ensures { result ≡ scan_of byte j block.now }
{
    let sought = Sought { block, byte, j };
    let none = Progress { read: 0, left: j };
    let long = sought.read_pieces(64, none);
    let short = sought.read_pieces(8, long);
    let mut left = short.left;
    let mut read = short.read;
    while read < block.len() {
        match sought.read_on(read) {
            ControlFlow::Break(through) => {
                if left == 0 {
                    return Scanned {
                        stands: Some(through - 1),
                        read: through,
                    };
                }
                left -= 1;
                read = through;
            }
            ControlFlow::Continue(all) => read = all,
        }
    }
    Scanned { stands: None, read }
}

// The position that a scan gives in a block of so many bytes: that number where there is none.
pub fn position_of(stands: Option<usize>, count: usize) -> usize
    ensures { result ≡ position_of stands count }
{
    stands.unwrap_or(count)
}
