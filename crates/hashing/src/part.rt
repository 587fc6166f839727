// A part of a word list in a hash table, and the look-up of a word in it.

ghost use Rattle.std.specs.Prelude.{◌≡◌, drop};
ghost use Rattle.hashing.specs.HashTables.{HashTable};
ghost use Rattle.scanning.specs.Scans.{words_at, WordBegins};

use crate::chain::{find, find_from};
use crate::word_list::WordList;

// So many words of a list from an offset on, in a hash table, and where the word behind them begins.
#[derive(Clone, Copy)]
pub struct Part<'a> {
    pub list: &'a WordList<'a>,
    pub from: usize,
    pub count: usize,
    pub behind: usize,
    pub heads: &'a [u32],
    pub links: &'a [u32],
    pub starts: &'a [usize],
    ghost hashed: { HashTable list.now.letters.table.now list.now.bytes.now from count heads.now links.now starts.now },
    ghost begun: { WordBegins list.now.letters.table.now list.now.bytes.now behind },
    ghost left: { words_at list.now.letters.table.now list.now.bytes.now behind ≡ drop count (words_at list.now.letters.table.now list.now.bytes.now from) },
}

impl Part<'_> {
    ghost use Rattle.std.specs.Prelude.{ℕ, ◌-◌, ◌≤◌, ◌<◌, length};
    ghost use Rattle.hashing.specs.HashTables.{spelled_at};
    ghost use Rattle.hashing.specs.Parts.{link_to, index_in_part, index_from_part};
    ghost use Rattle.scanning.specs.Scans.{run_at, bucket_of};

    // Looks a word of a text up along its bucket, from a word on that is given as 1 and its number, or
    // as 0 for none: the number of the first that is alike.
    pub fn find_from(&self, text: &[u8], at: usize, first: usize) -> Option<usize>
        requires { (at ≤ length text.now) × (first ≤ self.now.count) × (0 < first → bucket_of (spelled_at self.now.list.now.letters.table.now self.now.list.now.bytes.now self.now.from (first - 1)) ≡ bucket_of (run_at self.now.list.now.letters.table.now text.now at)) }
        ensures { link_to result ≡ index_from_part self.now (run_at self.now.list.now.letters.table.now text.now at) first }
    {
        find_from(
            &self.list.letters,
            self.list.bytes,
            self.from,
            self.count,
            self.links,
            self.starts,
            text,
            at,
            first,
        )
    }

    // Looks a word of a text up: its number in the part.
    pub fn find(&self, text: &[u8], at: usize, bucket: usize) -> Option<usize>
        requires { (at ≤ length text.now) × (bucket ≡ bucket_of (run_at self.now.list.now.letters.table.now text.now at)) }
        ensures { link_to result ≡ index_in_part self.now (run_at self.now.list.now.letters.table.now text.now at) }
    {
        find(
            &self.list.letters,
            self.list.bytes,
            self.from,
            self.count,
            self.heads,
            self.links,
            self.starts,
            text,
            at,
            bucket,
        )
    }
}
