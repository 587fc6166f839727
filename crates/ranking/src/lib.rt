// The ranks of the words of a text, all of them in a word list, looked up part by part.
#![tactic(auto)]

ghost use Rattle.std.specs.Prelude.{◌≡◌, ◌+◌, ◌≤◌, length};
ghost use Rattle.base.specs.Answers.{front};
ghost use Rattle.hashing.specs.HashTables.{Room};
ghost use Rattle.hashing.specs.Parts.{words_of};
ghost use Rattle.lexicon.specs.Reading.{text_words};
ghost use Rattle.ranking.specs.Ranks.{ranks_in, RankedByPart, Rankable};

use hashing::{MAX_PART, Part, WordList};

// Writes the ranks of the words of a text of so many words that are in a part of a list, which
// begins with the rank `first`. The others stay.
fn write_found(part: &Part, first: usize, text: &[u8], size: usize, ranks: &mut [u32])
    requires { (first + part.now.count ≤ 4294967295) × (size ≡ length (text_words part.now.list.now.letters.table.now text.now)) × (size ≤ length ranks.old) }
    ensures { RankedByPart part.now first text.now ranks.old ranks.new }
{
    let letters = &part.list.letters;
    let mut at = letters.word_start(text, 0);
    for place in 0..size {
        let scan = letters.scan_word(text, at);
        if let Some(word) = part.find(text, at, scan.bucket) {
            ranks[place] = (first + word) as u32;
        }
        at = letters.word_start(text, scan.end);
    }
}

// Writes the ranks of the words of a text, all of them listed, to the front of a slice, part by
// part. The rest stays. What is lent besides is room for a hash table, whatever it holds.
pub fn write_ranks(
    list: &WordList,
    heads: &mut [u32],
    links: &mut [u32],
    starts: &mut [usize],
    text: &[u8],
    size: usize,
    ranks: &mut [u32],
)
    requires { Rankable list.now.letters.table.now list.now.bytes.now list.now.size text.now size × (size ≤ length ranks.old) × Room heads.old links.old starts.old }
    ensures { ranks.new ≡ front (ranks_in (words_of list.now) (text_words list.now.letters.table.now text.now)) ranks.old }
{
    let words = list.size;
    let mut from = list.letters.word_start(list.bytes, 0);
    let mut first: usize = 0;
    while first < words {
        let count = (words - first).min(MAX_PART);
        let behind = hashing::hash_part(
            &list.letters,
            list.bytes,
            from,
            count,
            heads,
            links,
            starts,
        );
        let part = Part {
            list: &*list,
            from,
            count,
            behind,
            heads: &*heads,
            links: &*links,
            starts: &*starts,
        };
        write_found(&part, first, text, size, ranks);
        from = behind;
        first += count;
    }
}
