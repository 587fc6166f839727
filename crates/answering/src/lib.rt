// The answers to questions about an index that has passed the check, kind by kind. An absent word, whose
// rank is the vocabulary's size, is looked for nowhere: the text has no rank that is not below it.
//
// No function of this crate is an entry: each requires what its callers have tested.
#![tactic(auto)]

ghost use Rattle.std.specs.Prelude.{◌≡◌, true};
ghost use Rattle.base.specs.Outcomes.{answer_of};
ghost use Rattle.words.specs.Texts.{text_of, vocabulary_of};
ghost use Rattle.documents.specs.Documents.{is_ascending};
ghost use Rattle.questions.specs.Answering.{word_at_answer, occurrences_answer, place_answer, neighbours_answer, phrase_answer, question_answer};

use base::refusal::{Refusal, Refused};
use questions::Question;
use questions::kind::Kind;
use tree::Place;
use words::indexed_text::IndexedText;

// Kind 1: the rank at a place.
fn answer_word_at(text: &IndexedText, place: usize) -> Result<usize, Refused>
    ensures { answer_of result ≡ word_at_answer (text_of text.now) place }
{
    if text.length() <= place {
        return Err(Refusal::Place.into());
    }
    let rank = text.word_at(Place(place));
    Ok(rank as usize)
}

// Kind 2: how often a rank stands at places below a place.
fn answer_occurrences(text: &IndexedText, rank: usize, place: usize) -> Result<usize, Refused>
    ensures { answer_of result ≡ occurrences_answer (vocabulary_of text.now) (text_of text.now) rank place }
{
    let vocabulary = text.index.shape.vocabulary;
    if vocabulary < rank {
        return Err(Refusal::AskedRank.into());
    }
    if text.length() < place {
        return Err(Refusal::Place.into());
    }
    if rank == vocabulary {
        return Ok(0);
    }
    Ok(text.occurrences_below(rank, Place(place)))
}

// Kind 3: the place of the p-th of a rank, counted from 1.
fn answer_place(text: &IndexedText, rank: usize, p: usize) -> Result<usize, Refused>
    ensures { answer_of result ≡ place_answer (vocabulary_of text.now) (text_of text.now) rank p }
{
    let vocabulary = text.index.shape.vocabulary;
    if vocabulary < rank {
        return Err(Refusal::AskedRank.into());
    }
    if vocabulary == rank {
        return Err(Refusal::Place.into());
    }
    if p < 1 {
        return Err(Refusal::Place.into());
    }
    let way = ways::way_of(text, rank);
    let often = text.frequency_by(rank, way.first);
    if often < p {
        return Err(Refusal::Place.into());
    }
    let near = ways::nowhere(text.index.superblocks);
    let next = ways::place_along(text, rank, way, near, p - 1);
    Ok(next.place.0)
}

// Kind 4: how often a word has another at an offset in one document.
fn answer_neighbours(
    text: &IndexedText,
    documents: &[u32],
    w: u32,
    v: u32,
    offset: i32,
) -> Result<usize, Refused>
    requires { is_ascending documents.now ≡ true }
    ensures { answer_of result ≡ neighbours_answer (vocabulary_of text.now) (text_of text.now) documents.now w v offset }
{
    let vocabulary = text.index.shape.vocabulary;
    if vocabulary < w as usize {
        return Err(Refusal::AskedRank.into());
    }
    if vocabulary < v as usize {
        return Err(Refusal::AskedRank.into());
    }
    if offset < -Question::MAX_OFFSET {
        return Err(Refusal::Offset.into());
    }
    if Question::MAX_OFFSET < offset {
        return Err(Refusal::Offset.into());
    }
    if w as usize == vocabulary {
        return Ok(0);
    }
    if v as usize == vocabulary {
        return Ok(0);
    }
    Ok(counts::neighbours(text, documents, w, v, offset))
}

// Kind 5: how often a phrase stands inside one document.
fn answer_phrase(
    text: &IndexedText,
    documents: &[u32],
    words: &[u32],
    start: usize,
    count: usize,
) -> Result<usize, Refused>
    requires { is_ascending documents.now ≡ true }
    ensures { answer_of result ≡ phrase_answer (vocabulary_of text.now) (text_of text.now) documents.now words.now start count }
{
    if count == 0 {
        return phrase_checks::answer_no_words(words, start, text.length());
    }
    let vocabulary = text.index.shape.vocabulary;
    let phrase = phrase_checks::phrase_in(vocabulary, words, start, count)?;
    if phrase_checks::has_absent(vocabulary, phrase) {
        return Ok(0);
    }
    Ok(counts::count_phrase(text, documents, phrase))
}

// The answer to a question, by its kind.
pub fn answer(
    text: &IndexedText,
    documents: &[u32],
    words: &[u32],
    question: Question,
) -> Result<usize, Refused>
    requires { is_ascending documents.now ≡ true }
    ensures { answer_of result ≡ question_answer (vocabulary_of text.now) (text_of text.now) documents.now words.now question }
{
    let w = question.w as usize;
    match Kind::try_from(question.kind)? {
        Kind::WordAt => answer_word_at(text, question.p),
        Kind::OccurrencesBelow => answer_occurrences(text, w, question.p),
        Kind::PlaceOf => answer_place(text, w, question.p),
        Kind::Neighbours => {
            answer_neighbours(text, documents, question.w, question.v, question.d)
        }
        Kind::Phrase => answer_phrase(text, documents, words, question.start, question.length),
    }
}
