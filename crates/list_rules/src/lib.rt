// Whether a word list keeps the rules: the number of its words, how they are written, and that none is
// there twice.
#![tactic(auto)]

ghost use Rattle.std.specs.Prelude.{◌≡◌, true, ◌≤◌, length};
ghost use Rattle.hashing.specs.HashTables.{Room};
ghost use Rattle.hashing.specs.Parts.{words_of};
ghost use Rattle.lexicon.specs.Lexicon.{list_size, distinct, is_written};
ghost use Rattle.list_rules.specs.Repeats.{is_part_unrepeated};
ghost use Rattle.scanning.specs.Scans.{words_at};

use hashing::{MAX_PART, Part, WordList};
use scanning::Letters;

// The number of words of a list, which is that of its closing bytes.
pub fn list_size(list: &[u8]) -> usize
    ensures { result ≡ list_size list.now }
{
    list.iter().filter(|byte| **byte == b'\n').count()
}

// Whether each word of a list is closed, not empty, and spelled in bytes other than 00 that the
// table keeps.
pub fn is_written(letters: &Letters, list: &[u8]) -> bool
    ensures { result ≡ is_written letters.now.table.now list.now }
{
    let mut begun = false;
    for byte in list {
        if *byte == b'\n' {
            if !begun {
                return false;
            }
            begun = false;
        } else {
            if *byte == 0 {
                return false;
            }
            if letters.table[usize::from(*byte)] != *byte {
                return false;
            }
            begun = true;
        }
    }
    !begun
}

// Whether no word of a part of a list is spelled like a later one of it.
fn is_part_distinct(part: &Part) -> bool
    ensures { result ≡ is_part_unrepeated part.now part.now.count }
{
    for word in 0..part.count {
        let start = part.starts[word];
        let next = part.links[word] as usize;
        let later = part.find_from(part.list.bytes, start, next);
        if later.is_some() {
            return false;
        }
    }
    true
}

// Whether none of so many words of a list from the beginning of a part on is in the part at another
// place than its own, where the part is distinct.
fn is_unrepeated(part: &Part, size: usize) -> bool
    requires { (is_part_unrepeated part.now part.now.count ≡ true) × (part.now.count ≤ size) × (size ≤ length (words_at part.now.list.now.letters.table.now part.now.list.now.bytes.now part.now.from)) }
    ensures { result ≡ is_part_unrepeated part.now size }
{
    let list = part.list;
    let mut at = part.behind;
    for _ in part.count..size {
        let scan = list.letters.scan_word(list.bytes, at);
        let found = part.find(list.bytes, at, scan.bucket);
        if found.is_some() {
            return false;
        }
        at = list.letters.word_start(list.bytes, scan.end);
    }
    true
}

// The same where it is not known that the part is distinct.
fn is_part_unrepeated(part: &Part, size: usize) -> bool
    requires { (part.now.count ≤ size) × (size ≤ length (words_at part.now.list.now.letters.table.now part.now.list.now.bytes.now part.now.from)) }
    ensures { result ≡ is_part_unrepeated part.now size }
{
    is_part_distinct(part) && is_unrepeated(part, size)
}

// Whether no word of a list is there twice, part by part. What is lent is room for a hash table,
// whatever it holds.
pub fn is_distinct(
    list: &WordList,
    heads: &mut [u32],
    links: &mut [u32],
    starts: &mut [usize],
) -> bool
    requires { Room heads.old links.old starts.old }
    ensures { result ≡ distinct (words_of list.now) }
{
    let mut from = list.letters.word_start(list.bytes, 0);
    let mut first: usize = 0;
    while first < list.size {
        let left = list.size - first;
        let count = left.min(MAX_PART);
        let behind = hashing::hash_part(
            &list.letters,
            list.bytes,
            from,
            count,
            heads,
            links,
            starts,
        );
        let part = Part {
            list: &*list,
            from,
            count,
            behind,
            heads: &*heads,
            links: &*links,
            starts: &*starts,
        };
        if !is_part_unrepeated(&part, left) {
            return false;
        }
        from = behind;
        first += count;
    }
    true
}
