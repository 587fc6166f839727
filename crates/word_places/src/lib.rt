// The places of the words of a text: where each word begins, the place at which it appears first, and
// how often it stands; with every letter table that keeps the rules.
#![tactic(auto)]

ghost use Rattle.std.specs.Prelude.{◌≡◌, cond, suc, ◌-◌, ◌≤◌, ◌<◌, ltb, length, get_or, set, take};
ghost use Rattle.base.specs.Lists.{Below, filter_by};
ghost use Rattle.hashing.specs.Parts.{link_to};
ghost use Rattle.lexicon.specs.Reading.{spellings};
ghost use Rattle.scanning.specs.Scans.{buckets, bucket_of};
ghost use Rattle.counting_sort.specs.Sorting.{Cleared, Histogram};
ghost use Rattle.word_places.specs.Places.{word_of, DistinctChained, Begun, earlier_place, TextNoted};

use scanning::Letters;

// Looks the word at a place up among those before it, of which the distinct ones are in a hash table:
// the place at which it appears first, if it has appeared before.
fn find_earlier(
    letters: &Letters,
    text: &[u8],
    heads: &[u32],
    links: &[u32],
    starts: &[usize],
    place: usize,
    bucket: usize,
) -> Option<usize>
    requires { let words = spellings letters.now.table.now text.now in (place < length words) × Begun letters.now.table.now text.now (suc place) starts.now × DistinctChained words place heads.now links.now × (place ≤ length links.now) × (bucket ≡ bucket_of (word_of words place)) }
    ensures { link_to result ≡ earlier_place (spellings letters.now.table.now text.now) place }
{
    let start = starts[place];
    let mut other = heads[bucket] as usize;
    while 0 < other {
        let begin = starts[other - 1];
        if letters.same_word(text, start, text, begin) {
            return Some(other - 1);
        }
        other = links[other - 1] as usize;
    }
    None
}

// Puts the word at a place that was not found before it into its bucket, in front of the others. It
// gives the place at which the word appears first: the one that was found, or its own.
fn add_word(
    heads: &mut [u32],
    links: &mut [u32],
    bucket: usize,
    place: usize,
    found: Option<usize>,
) -> usize
    requires { (bucket < length heads.old) × (place < length links.old) × (place < 4294967295) }
    ensures { let link = link_to found in (result ≡ cond (ltb 0 link) (link - 1) place) × (heads.new ≡ cond (ltb 0 link) heads.old (set heads.old bucket (suc place))) × (links.new ≡ cond (ltb 0 link) links.old (set links.old place (get_or heads.old bucket 0))) }
{
    if let Some(first) = found {
        return first;
    }
    links[place] = heads[bucket];
    heads[bucket] = (place + 1) as u32;
    place
}

// Notes of each word of a text where it begins and the place at which it appears first, by a hash table
// of the distinct words, which is empty before. It gives the number of words.
pub fn note_words(
    letters: &Letters,
    text: &[u8],
    heads: &mut [u32],
    links: &mut [u32],
    starts: &mut [usize],
    firsts: &mut [u32],
) -> usize
    requires { let words = length (spellings letters.now.table.now text.now) in (length heads.old ≡ buckets) × Cleared heads.old × (words ≤ length links.old) × (words ≤ length starts.old) × (words ≤ length firsts.old) × (words < 4294967295) }
    ensures { TextNoted letters.now.table.now text.now starts.new firsts.new result }
{
    let mut at = letters.word_start(text, 0);
    let mut place: usize = 0;
    while at < text.len() {
        let scan = letters.scan_word(text, at);
        starts[place] = at;
        let found = find_earlier(letters, text, heads, links, starts, place, scan.bucket);
        let first = add_word(heads, links, scan.bucket, place, found);
        firsts[place] = first as u32;
        at = letters.word_start(text, scan.end);
        place += 1;
    }
    place
}

// How many of the first so many counts are above 0.
fn count_used(counts: &[u32], size: usize) -> usize
    requires { size ≤ length counts.now }
    ensures { result ≡ length (filter_by (ltb 0) (take size counts.now)) }
{
    counts[..size].iter().filter(|count| 0 < **count).count()
}

// Counts in a clear table how often each of so many places is noted, and gives how many are.
pub fn count_places(firsts: &[u32], size: usize, counts: &mut [u32]) -> usize
    requires { (size < 4294967296) × (size ≤ length firsts.now) × (size ≤ length counts.old) × Below (length counts.old) (take size firsts.now) × Cleared counts.old }
    ensures { Histogram (take size firsts.now) counts.new × (result ≡ length (filter_by (ltb 0) (take size counts.new))) }
{
    counting_sort::count_values(firsts, size, counts);
    count_used(counts, size)
}
