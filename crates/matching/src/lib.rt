// Whether what is sought stands at a place of the text: a phrase, or a pair of words at an offset.
// The first bytes of the codewords are compared in the root, and where they agree the whole words.
//
// No function of this crate is an entry: a text is behind an index that has passed the check, and a
// query says of itself that it can be searched.
#![tactic(auto)]

ghost use Rattle.std.specs.Prelude.{◌≡◌, true, ◌&&◌, ◌+◌, ◌≤◌, ◌<◌, eqb, pos, ◌+ℤ◌, nat_abs, length, get_or};
ghost use Rattle.base.specs.Lists.{Below};
ghost use Rattle.base.specs.Answers.{front};
ghost use Rattle.dense.specs.Code.{Closing, code, max_vocabulary};
ghost use Rattle.tree.specs.Nodes.{first_byte};
ghost use Rattle.words.specs.Words.{rank_at};
ghost use Rattle.phrases.specs.Phrases.{stands};
ghost use Rattle.phrases.specs.Neighbours.{stands_at};
ghost use Rattle.documents.specs.Documents.{is_ascending, same_document, stands_in, neighbour_in};
ghost use Rattle.matching.specs.Sought.{hit_in};
ghost use Rattle.words.specs.Texts.{text_of};
ghost use Rattle.matching.specs.Searching.{first_bytes};

pub mod query;

use query::Query;
use tree::{Place, Position};
use words::indexed_text::IndexedText;

// What is sought, beside its words: a phrase of them, or the first of two with the second at an
// offset, which is negative to the left.
#[derive(Clone, Copy)]
pub enum Sought {
    Phrase,
    Pair(i32),
}

// Whether a rank stands at a place of the text: the whole word is read.
fn agrees_at(text: &IndexedText, place: Place, rank: usize) -> bool
    requires { place.0 < length (text_of text.now) }
    ensures { result ≡ eqb (rank_at (text_of text.now) place.0) rank }
{
    text.word_at(place) as usize == rank
}

// Whether each word of a phrase is the one at its place of the text: the whole words are read.
fn words_stand(text: &IndexedText, words: &[u32], place: Place) -> bool
    requires { place.0 + length words.now ≤ length (text_of text.now) }
    ensures { result ≡ stands (text_of text.now) words.now place.0 }
{
    for (i, word) in words.iter().enumerate() {
        if !agrees_at(text, Place(place.0 + i), *word as usize) {
            return false;
        }
    }
    true
}

// Writes the first byte of the codeword of each word to the front of a table.
pub fn first_bytes(s: usize, words: &[u32], table: &mut [u8])
    requires { Closing s × Below (max_vocabulary s) words.now × (length words.now ≤ length table.old) }
    ensures { table.new ≡ front (first_bytes s words.now) table.old }
{
    for (i, word) in words.iter().enumerate() {
        table[i] = dense::encode(s, *word as usize).first;
    }
}

// Whether bytes stand in other bytes at a position.
fn bytes_stand(firsts: &[u8], bytes: &[u8], at: Position) -> bool
    requires { at.0 + length firsts.now ≤ length bytes.now }
    ensures { result ≡ stands bytes.now firsts.now at.0 }
{
    firsts == &bytes[at.0..at.0 + firsts.len()]
}

impl Query<'_> {
    // Whether the words stand as a phrase at a place of the text, inside one document: the first bytes
    // are compared in the root, and where they are those of the words there, the last word must lie in
    // the document of the first, and the whole words are compared.
    fn stands_at(&self, place: Place) -> bool
        requires { place.0 ≤ length (text_of self.now.text) }
        ensures { result ≡ stands_in self.now.documents.now (text_of self.now.text) self.now.words.now place.0 }
    {
        let (documents, words) = (self.documents, self.words);
        let n = self.text.length();
        if n < place.0 + words.len() {
            return false;
        }
        let alike = bytes_stand(
            self.firsts,
            self.text.index.bytes,
            tree::root_position(place),
        );
        if !alike {
            return false;
        }
        let together = documents::in_one_document(documents, place, words.len());
        if !together {
            return false;
        }
        words_stand(&self.text, words, place)
    }

    // Whether a rank with this first byte stands at a place of the text, in the document of another
    // place: the byte is compared in the root, and where it is the one there, the documents and the
    // whole word.
    fn word_stands(&self, first: u8, rank: usize, from: Place, place: Place) -> bool
        requires { (first ≡ first_byte (code self.now.text.index.s rank)) × (place.0 < length (text_of self.now.text)) }
        ensures { result ≡ same_document self.now.documents.now from.0 place.0 && eqb (rank_at (text_of self.now.text) place.0) rank }
    {
        let bytes = self.text.index.bytes;
        let at = tree::root_position(place).0;
        if bytes[at] != first {
            return false;
        }
        if !documents::same_document(self.documents, from, place) {
            return false;
        }
        agrees_at(&self.text, place, rank)
    }

    // Whether a rank with this first byte stands at an offset from a place, in the same document: never
    // where that is outside the text.
    fn neighbour_at(&self, first: u8, rank: usize, place: Place, offset: i32) -> bool
        requires { (first ≡ first_byte (code self.now.text.index.s rank)) × (place.0 < length (text_of self.now.text)) }
        ensures { result ≡ same_document self.now.documents.now place.0 (nat_abs (pos place.0 +ℤ offset)) && stands_at (text_of self.now.text) rank (pos place.0 +ℤ offset) }
    {
        match phrases::shifted(place, offset, self.text.length()) {
            Some(at) => self.word_stands(first, rank, place, at),
            None => false,
        }
    }

    // Whether the first of two words stands at a place and the second at an offset from it, in the same
    // document: the first is read whole, and where it stands there the second is looked at.
    fn pair_at(&self, place: Place, offset: i32) -> bool
        requires { (length self.now.words.now ≡ 2) × (place.0 < length (text_of self.now.text)) }
        ensures { result ≡ neighbour_in self.now.documents.now (text_of self.now.text) (get_or self.now.words.now 0 0) (get_or self.now.words.now 1 0) offset place.0 }
    {
        let (firsts, words) = (self.firsts, self.words);
        if !agrees_at(&self.text, place, words[0] as usize) {
            return false;
        }
        self.neighbour_at(firsts[1], words[1] as usize, place, offset)
    }

    // Whether what is sought stands at a place of the text, inside one document.
    pub fn hit_at(&self, place: Place) -> bool
        requires { place.0 < length (text_of self.now.text) }
        ensures { result ≡ hit_in self.now.documents.now (text_of self.now.text) self.now.words.now self.now.sought place.0 }
    {
        match self.sought {
            Sought::Phrase => self.stands_at(place),
            Sought::Pair(offset) => self.pair_at(place, offset),
        }
    }
}
