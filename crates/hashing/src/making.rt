// How the hash table of a part of a word list is made, in slices that are lent.

ghost use Rattle.std.specs.Prelude.{◌≡◌, ◌≤◌, length, drop};
ghost use Rattle.hashing.specs.HashTables.{max_part, Room, Starts, Buckets, Chains, HashTable};
ghost use Rattle.scanning.specs.Scans.{words_at, WordBegins};

use scanning::Letters;

// Notes where each of so many words from an offset of a list on begins, and its bucket. Returns where
// the word behind them begins.
fn note_starts(
    letters: &Letters,
    list: &[u8],
    from: usize,
    count: usize,
    buckets: &mut [u32],
    starts: &mut [usize],
) -> usize
    requires { let table = letters.now.table.now in WordBegins table list.now from × (count ≤ max_part) × (count ≤ length (words_at table list.now from)) × (length buckets.old ≡ max_part) × (length starts.old ≡ max_part) }
    ensures { let table = letters.now.table.now in Starts table list.now from count starts.new × Buckets table list.now from count buckets.new × WordBegins table list.now result × (words_at table list.now result ≡ drop count (words_at table list.now from)) }
{
    let mut at = from;
    for word in 0..count {
        let scan = letters.scan_word(list, at);
        starts[word] = at;
        buckets[word] = scan.bucket as u32;
        at = letters.word_start(list, scan.end);
    }
    at
}

// Puts so many words of a list into an empty hash table: the last one first, so that a bucket has its
// words in their order. The link of a word takes the place where its bucket is noted.
fn chain(
    letters: &Letters,
    list: &[u8],
    from: usize,
    count: usize,
    heads: &mut [u32],
    links: &mut [u32],
)
    requires { let table = letters.now.table.now in (count ≤ max_part) × Buckets table list.now from count links.old × Chains table list.now from count count heads.old links.old }
    ensures { Chains letters.now.table.now list.now from count 0 heads.new links.new }
{
    for word in (0..count).rev() {
        let bucket = links[word] as usize;
        links[word] = heads[bucket];
        heads[bucket] = (word + 1) as u32;
    }
}

// Makes the hash table of so many words from an offset of a list on, in room for one, whatever it
// holds. Returns where the word behind them begins.
pub fn hash_part(
    letters: &Letters,
    list: &[u8],
    from: usize,
    count: usize,
    heads: &mut [u32],
    links: &mut [u32],
    starts: &mut [usize],
) -> usize
    requires { let table = letters.now.table.now in WordBegins table list.now from × (count ≤ max_part) × (count ≤ length (words_at table list.now from)) × Room heads.old links.old starts.old }
    ensures { let table = letters.now.table.now in HashTable table list.now from count heads.new links.new starts.new × WordBegins table list.now result × (words_at table list.now result ≡ drop count (words_at table list.now from)) }
{
    heads.fill(0);
    let behind = note_starts(letters, list, from, count, links, starts);
    chain(letters, list, from, count, heads, links);
    behind
}
