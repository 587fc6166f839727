// The memory of the hash table of a part of a word list.

ghost use Rattle.std.specs.Prelude.{◌≡◌, ◌≤◌, length, drop};
ghost use Rattle.hashing.specs.HashTables.{max_part, HashTable};
ghost use Rattle.scanning.specs.Scans.{words_at, WordBegins};

use crate::making::hash_part;
use scanning::{BUCKETS, Letters};

// The most words of a part of a list that is put into a hash table.
pub const MAX_PART: usize = 100000;

// The memory of a hash table: for each bucket 1 and the number of its first word, for each word 1 and
// the number of the next one of its bucket, 0 where there is none, and where each word begins.
#[derive(Drop)]
pub struct Slots {
    pub heads: [u32; BUCKETS],
    pub links: [u32; MAX_PART],
    pub starts: [usize; MAX_PART],
}

impl Slots {
    // Memory in which no part is yet.
    pub fn new() -> Slots {
        Slots {
            heads: [0; BUCKETS],
            links: [0; MAX_PART],
            starts: [0; MAX_PART],
        }
    }

    // Makes the hash table of so many words from an offset of a list on. Returns where the word behind
    // them begins.
    pub fn hash_part(&mut self, letters: &Letters, list: &[u8], from: usize, count: usize) -> usize
        requires { let table = letters.now.table.now in WordBegins table list.now from × (count ≤ max_part) × (count ≤ length (words_at table list.now from)) }
        ensures { let table = letters.now.table.now in HashTable table list.now from count self.new.heads self.new.links self.new.starts × WordBegins table list.now result × (words_at table list.now result ≡ drop count (words_at table list.now from)) }
    {
        hash_part(
            letters,
            list,
            from,
            count,
            &mut self.heads,
            &mut self.links,
            &mut self.starts,
        )
    }
}
