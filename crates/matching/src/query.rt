// What is sought in an indexed text.

ghost use Rattle.std.specs.Prelude.{◌≡◌, ◌≤◌, true, length};
ghost use Rattle.base.specs.Lists.{Below};
ghost use Rattle.base.specs.Props.{Below-prop};
ghost use Rattle.base.specs.Texts.{max_phrase};
ghost use Rattle.documents.specs.Documents.{is_ascending};
ghost use Rattle.matching.specs.Searching.{first_bytes, AsPair};

use super::Sought;
use words::indexed_text::IndexedText;

// What is sought in a text inside one document: the words, of which there are 1 to 16, the first bytes
// of their codewords, whether they are a phrase or a pair, and the starts of the documents.
#[derive(Clone, Copy)]
pub struct Query<'a> {
    pub text: IndexedText<'a>,
    pub documents: &'a [u32],
    pub firsts: &'a [u8],
    pub words: &'a [u32],
    pub sought: Sought,
    pub ghost some: { 1 ≤ length words.now },
    pub ghost most: { length words.now ≤ max_phrase },
    pub ghost below: { Below text.index.shape.vocabulary words.now } by { Below-prop text.index.shape.vocabulary words.now },
    pub ghost firsts_are: { firsts.now ≡ first_bytes text.index.s words.now },
    pub ghost paired: { AsPair words.now sought },
    pub ghost ascending: { is_ascending documents.now ≡ true },
}
