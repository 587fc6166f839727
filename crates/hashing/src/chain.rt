// The look-up of a word along the words of its bucket.

ghost use Rattle.std.specs.Prelude.{◌≡◌, ℕ, ◌-◌, ◌≤◌, ◌<◌, length};
ghost use Rattle.hashing.specs.HashTables.{max_part, spelled_at, index_in, index_from, Starts, Links, HashTable};
ghost use Rattle.hashing.specs.Parts.{link_to};
ghost use Rattle.scanning.specs.Scans.{run_at, bucket_of};

use scanning::Letters;

// Looks a word of a text up along its bucket in a part of a list, from a word on that is given as 1
// and its number, or as 0 for none: the number of the first that is alike.
pub fn find_from(
    letters: &Letters,
    list: &[u8],
    from: usize,
    count: usize,
    links: &[u32],
    starts: &[usize],
    text: &[u8],
    at: usize,
    first: usize,
) -> Option<usize>
    requires { let table = letters.now.table.now in (count ≤ max_part) × Starts table list.now from count starts.now × Links table list.now from count 0 links.now × (at ≤ length text.now) × (first ≤ count) × (0 < first → bucket_of (spelled_at table list.now from (first - 1)) ≡ bucket_of (run_at table text.now at)) }
    ensures { let table = letters.now.table.now in link_to result ≡ index_from table list.now from count (run_at table text.now at) first }
{
    let mut word = first;
    while 0 < word {
        let start = starts[word - 1];
        if letters.same_word(text, at, list, start) {
            return Some(word - 1);
        }
        word = links[word - 1] as usize;
    }
    None
}

// Looks a word of a text up in a part of a list: its number there.
pub fn find(
    letters: &Letters,
    list: &[u8],
    from: usize,
    count: usize,
    heads: &[u32],
    links: &[u32],
    starts: &[usize],
    text: &[u8],
    at: usize,
    bucket: usize,
) -> Option<usize>
    requires { let table = letters.now.table.now in HashTable table list.now from count heads.now links.now starts.now × (at ≤ length text.now) × (bucket ≡ bucket_of (run_at table text.now at)) }
    ensures { let table = letters.now.table.now in link_to result ≡ index_in table list.now from count (run_at table text.now at) }
{
    let first = heads[bucket] as usize;
    find_from(letters, list, from, count, links, starts, text, at, first)
}
