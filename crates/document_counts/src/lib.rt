// How often a phrase stands in each document: each hit of the phrase is added to the count of the
// document that holds it.
//
// No function of this crate is an entry: `count_by_document` requires of the index what an
// `IndexedText` has, and that the document starts keep the rules.
#![tactic(auto)]

ghost use Rattle.std.specs.Prelude.{◌≡◌, true, map, ◌+◌, ◌-◌, ◌≤◌, ◌<◌, length, get_or, set};
ghost use Rattle.base.specs.Lists.{Below, range_from};
ghost use Rattle.base.specs.Texts.{max_phrase};
ghost use Rattle.base.specs.Answers.{front};
ghost use Rattle.words.specs.Texts.{text_of, vocabulary_of};
ghost use Rattle.documents.specs.Documents.{is_ascending, are_starts, document_of, counts_by_document};

use matching::Sought;
use matching::query::Query;
use tree::Place;
use words::indexed_text::IndexedText;

// Writes 0 to the first so many elements of a slice.
pub fn clear_counts(counts: &mut [u32], size: usize)
    requires { size ≤ length counts.old }
    ensures { counts.new ≡ front (map (λ k. 0) (range_from 0 size)) counts.old }
{
    counts[..size].fill(0);
}

// Adds 1 to the count of the document that holds a place.
fn count_place(documents: &[u32], place: Place, counts: &mut [u32])
    requires { (is_ascending documents.now ≡ true) × (1 ≤ document_of documents.now place.0) × (document_of documents.now place.0 ≤ length counts.old)
        × (get_or counts.old (document_of documents.now place.0 - 1) 0 < 4294967295) }
    ensures { counts.new ≡ set counts.old (document_of documents.now place.0 - 1) (get_or counts.old (document_of documents.now place.0 - 1) 0 + 1) }
{
    let at = documents::document_of(documents, place) - 1;
    counts[at] += 1;
}

// Writes how often a phrase stands in each document to the front of a slice.
pub fn count_by_document(text: &IndexedText, documents: &[u32], words: &[u32], counts: &mut [u32])
    requires { (1 ≤ length words.now) × (length words.now ≤ max_phrase) × Below (vocabulary_of text.now) words.now
        × (are_starts (length (text_of text.now)) documents.now ≡ true) × (length documents.now ≤ length counts.old) }
    ensures { counts.new ≡ front (counts_by_document documents.now (text_of text.now) words.now) counts.old }
{
    clear_counts(counts, documents.len());
    let mut table = [0u8; 16];
    matching::first_bytes(text.index.s, words, &mut table);
    let query = Query {
        text: *text,
        documents,
        firsts: &table[..words.len()],
        words,
        sought: Sought::Phrase,
    };
    for place in hits::hits_from(&query, Place(0)) {
        count_place(documents, place, counts);
    }
}
