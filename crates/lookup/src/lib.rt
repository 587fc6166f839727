// The words of a text, looked up in a word list part by part: how many are listed, and the first that is
// not.
#![tactic(auto)]

ghost use Rattle.std.specs.Prelude.{◌≡◌, true, IsSome, ◌≤◌, ◌<◌, length, take};
ghost use Rattle.hashing.specs.HashTables.{Room};
ghost use Rattle.hashing.specs.Parts.{words_of};
ghost use Rattle.lexicon.specs.Lexicon.{distinct};
ghost use Rattle.lexicon.specs.Reading.{text_words};
ghost use Rattle.lookup.specs.Lookups.{count_in_part, count_listed, first_missing, offset_or};
ghost use Rattle.scanning.specs.Scans.{words_at, WordBegins};

use hashing::{MAX_PART, Part, WordList};

// How many of so many words of a text from a position on are in a part of a list.
fn count_found(part: &Part, text: &[u8], at: usize, size: usize) -> usize
    requires { let table = part.now.list.now.letters.table.now in WordBegins table text.now at × (size ≤ length (words_at table text.now at)) }
    ensures { result ≡ count_in_part part.now (take size (words_at part.now.list.now.letters.table.now text.now at)) }
{
    let letters = &part.list.letters;
    let mut start = at;
    let mut found = 0;
    for _ in 0..size {
        let scan = letters.scan_word(text, start);
        let word = part.find(text, start, scan.bucket);
        if word.is_some() {
            found += 1;
        }
        start = letters.word_start(text, scan.end);
    }
    found
}

// How many of so many words of a text from a position on are in a list, part by part. What is lent is
// room for a hash table, whatever it holds.
pub fn count_listed(
    list: &WordList,
    heads: &mut [u32],
    links: &mut [u32],
    starts: &mut [usize],
    text: &[u8],
    at: usize,
    size: usize,
) -> usize
    requires { let table = list.now.letters.table.now in (distinct (words_of list.now) ≡ true) × WordBegins table text.now at × (size ≤ length (words_at table text.now at)) × Room heads.old links.old starts.old }
    ensures { result ≡ count_listed (words_of list.now) (take size (words_at list.now.letters.table.now text.now at)) }
{
    let mut from = list.letters.word_start(list.bytes, 0);
    let mut first: usize = 0;
    let mut found: usize = 0;
    while first < list.size {
        let count = (list.size - first).min(MAX_PART);
        let behind = hashing::hash_part(
            &list.letters,
            list.bytes,
            from,
            count,
            heads,
            links,
            starts,
        );
        let part = Part {
            list: &*list,
            from,
            count,
            behind,
            heads: &*heads,
            links: &*links,
            starts: &*starts,
        };
        found += count_found(&part, text, at, size);
        from = behind;
        first += count;
    }
    found
}

// The offset of the first word of a text of so many words that is not in a list. A range that has such a
// word is halved until it is that word. What is lent is room for a hash table.
pub fn first_unlisted(
    list: &WordList,
    heads: &mut [u32],
    links: &mut [u32],
    starts: &mut [usize],
    text: &[u8],
    size: usize,
) -> Option<usize>
    requires { (distinct (words_of list.now) ≡ true) × (size ≡ length (text_words list.now.letters.table.now text.now)) × Room heads.old links.old starts.old }
    ensures { let missing = first_missing (words_of list.now) (length text.now) (text_words list.now.letters.table.now text.now) in (offset_or (length text.now) result ≡ missing) × (IsSome result → missing < length text.now) }
{
    let mut at = list.letters.word_start(text, 0);
    if count_listed(list, heads, links, starts, text, at, size) == size {
        return None;
    }
    let mut left = size;
    while 1 < left {
        let half = left / 2;
        if count_listed(list, heads, links, starts, text, at, half) == half {
            at = list.letters.skip_words(text, at, half);
            left -= half;
        } else {
            left = half;
        }
    }
    Some(at)
}
