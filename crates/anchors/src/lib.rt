// The two words of what is sought by which it is searched: the anchor, along whose occurrences the
// search goes, and the second, whose first byte stands in the root so many bytes from that of the
// anchor wherever what is sought stands.
//
// No function of this crate is an entry: a text is behind an index that has passed the check, and the
// words are of its vocabulary.
#![tactic(auto)]

ghost use Rattle.std.specs.Prelude.{◌≡◌, ◌≤◌, ◌<◌, length};
ghost use Rattle.base.specs.Lists.{Below};
ghost use Rattle.base.specs.Texts.{max_words, max_phrase};
ghost use Rattle.words.specs.Texts.{text_of, vocabulary_of};
ghost use Rattle.matching.specs.Searching.{Paired};
ghost use Rattle.anchors.specs.Anchors.{Rarest, AnchorOf};
ghost use Rattle.anchors.specs.Seconds.{second_at, SecondOf};

use matching::Sought;
use tree::Place;
use words::indexed_text::IndexedText;

// The second word of what is sought: its number among the words, and how many bytes of the root the
// anchor and the second stand after the earlier of the two.
#[derive(Clone, Copy)]
pub struct Second {
    pub number: usize,
    pub here: usize,
    pub there: usize,
}

// The index of a word of a phrase than which none of its words stands less often in the text.
fn rarest(text: &IndexedText, words: &[u32]) -> usize
    requires { (1 ≤ length words.now) × Below (vocabulary_of text.now) words.now }
    ensures { Rarest (text_of text.now) words.now result }
{
    let mut rare = 0;
    let mut least = text.frequency(words[0] as usize);
    for i in 1..words.len() {
        let often = text.frequency(words[i] as usize);
        if often < least {
            least = often;
            rare = i;
        }
    }
    rare
}

// The number of the anchor among the words: of a phrase its rarest word, of a pair the first.
pub fn anchor_of(text: &IndexedText, words: &[u32], sought: Sought) -> usize
    requires { (1 ≤ length words.now) × Below (vocabulary_of text.now) words.now }
    ensures { AnchorOf words.now sought result }
{
    match sought {
        Sought::Phrase => rarest(text, words),
        Sought::Pair(_) => 0,
    }
}

// How often the first byte of the codeword of a rank stands in the root; it decides how long a search
// takes, and nothing else.
pub fn in_root(text: &IndexedText, rank: usize) -> usize
    requires { rank < vocabulary_of text.now }
{
    let codeword = dense::encode(text.index.s, rank);
    if codeword.length == 1 {
        return text.frequency(rank);
    }
    let child = 1 + usize::from(codeword.first);
    text.index.lengths.get(child).map_or(0, |n| *n as usize)
}

// The number of the word of a phrase, other than its anchor, whose first byte is rarest in the root;
// the anchor's where there is no other.
fn rarest_beside(text: &IndexedText, words: &[u32], anchor: usize) -> usize
    requires { Below (vocabulary_of text.now) words.now × (anchor < length words.now) }
    ensures { result < length words.now }
{
    let mut second = anchor;
    let mut least = usize::MAX;
    for (i, word) in words.iter().enumerate() {
        if i == anchor {
            continue;
        }
        let often = in_root(text, *word as usize);
        if often < least {
            least = often;
            second = i;
        }
    }
    second
}

// The second word of a pair at an offset in a text of n words: the anchor itself where no two words
// of the text stand so far apart.
fn second_at(offset: i32, n: usize) -> Second
    requires { n ≤ max_words }
    ensures { result ≡ second_at offset n }
{
    if let Some(place) = phrases::shifted(Place(0), offset, n) {
        return Second {
            number: 1,
            here: 0,
            there: place.0,
        };
    }
    if let Some(place) = phrases::shifted(Place(n), offset, n) {
        return Second {
            number: 1,
            here: n - place.0,
            there: 0,
        };
    }
    Second {
        number: 0,
        here: 0,
        there: 0,
    }
}

// The second word of what is sought with an anchor: of a phrase another of its words, of a pair the
// second.
pub fn second_of(text: &IndexedText, words: &[u32], sought: Sought, anchor: usize) -> Second
    requires { (length words.now ≤ max_phrase) × Below (vocabulary_of text.now) words.now × Paired words.now sought × AnchorOf words.now sought anchor × (anchor < length words.now) }
    ensures { SecondOf (text_of text.now) words.now sought anchor result }
{
    match sought {
        Sought::Phrase => {
            let number = rarest_beside(text, words, anchor);
            Second {
                number,
                here: anchor.saturating_sub(number),
                there: number.saturating_sub(anchor),
            }
        }
        Sought::Pair(offset) => second_at(offset, text.length()),
    }
}
