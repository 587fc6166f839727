// How often a phrase stands inside one document, and how often a word has another at an offset in
// one: the number of the hits of a query.
//
// No function of this crate is an entry: what each requires of the index is what an `IndexedText`
// has.
#![tactic(auto)]

ghost use Rattle.std.specs.Prelude.{◌≡◌, true, suc, ◌≤◌, ◌<◌, nat_abs, length};
ghost use Rattle.base.specs.Lists.{Below};
ghost use Rattle.base.specs.Texts.{max_phrase, max_offset};
ghost use Rattle.words.specs.Texts.{text_of, vocabulary_of};
ghost use Rattle.documents.specs.Documents.{is_ascending, places_in, neighbours_in};
ghost use Rattle.hits.specs.Hits.{hits_between};
ghost use Rattle.hits.specs.Queries.{is_hit};

use matching::Sought;
use matching::query::Query;
use tree::Place;
use words::indexed_text::IndexedText;

// How often what is sought stands inside one document, at the places from 0 to the end of the text.
fn count_hits(query: &Query) -> usize
    ensures { result ≡ length (hits_between (is_hit query.now) 0 (suc (length (text_of query.now.text)))) }
{
    hits::hits_from(query, Place(0)).count()
}

// How often a phrase stands inside one document; a phrase of one word as often as the word.
pub fn count_phrase(text: &IndexedText, documents: &[u32], words: &[u32]) -> usize
    requires { (1 ≤ length words.now) × (length words.now ≤ max_phrase) × Below (vocabulary_of text.now) words.now × (is_ascending documents.now ≡ true) }
    ensures { result ≡ length (places_in documents.now (text_of text.now) words.now) }
{
    let m = words.len();
    if m == 1 {
        return text.frequency(words[0] as usize);
    }
    let mut table = [0u8; 16];
    matching::first_bytes(text.index.s, words, &mut table);
    count_hits(&Query {
        text: *text,
        documents,
        firsts: &table[..m],
        words,
        sought: Sought::Phrase,
    })
}

// How often a word has another at an offset in one document.
fn count_pair(text: &IndexedText, documents: &[u32], w: u32, v: u32, offset: i32) -> usize
    requires { (w < vocabulary_of text.now) × (v < vocabulary_of text.now) × (is_ascending documents.now ≡ true) }
    ensures { result ≡ neighbours_in documents.now (text_of text.now) w v offset }
{
    let pair = [w, v];
    let mut table = [0u8; 2];
    matching::first_bytes(text.index.s, &pair, &mut table);
    count_hits(&Query {
        text: *text,
        documents,
        firsts: &table,
        words: &pair,
        sought: Sought::Pair(offset),
    })
}

// How often a word has another at an offset in one document: the first of the pair sought is the
// rarer of the two, from which the other stands at the offset or at the negated one.
pub fn neighbours(text: &IndexedText, documents: &[u32], w: u32, v: u32, offset: i32) -> usize
    requires { (w < vocabulary_of text.now) × (v < vocabulary_of text.now) × (nat_abs offset ≤ max_offset) × (is_ascending documents.now ≡ true) }
    ensures { result ≡ neighbours_in documents.now (text_of text.now) w v offset }
{
    let first = text.frequency(w as usize);
    let second = text.frequency(v as usize);
    if first <= second {
        count_pair(text, documents, w, v, offset)
    } else {
        let back = phrases::negated(offset);
        count_pair(text, documents, v, w, back)
    }
}
