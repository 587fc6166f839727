// The table of refusals: why a call is turned down.

ghost use Rattle.std.specs.Prelude.{◌≡◌};
ghost use Rattle.base.specs.Outcomes.{number_of, refused_by};

// Why a call is refused. Each refusal has the number that a call returns for it.
#[derive(Clone, Copy, PartialEq, Eq, Debug)]
pub enum Refusal {
    // V is outside its limits.
    Vocabulary = 1,

    // A text, stream or plain text has more than 16,777,216 words.
    Words = 2,

    // B or b is 0, or the superblock length S is above 65,535.
    Blocks = 3,

    // A rank of the text to index or code is not below V.
    TextRank = 4,

    // A slice to be built or filled is shorter than needed.
    ShortSlice = 5,

    // The check of the index does not pass.
    Index = 6,

    // The kind of a question is outside 1 to 5.
    Kind = 7,

    // A phrase's length is above 16, or 0 in a summary, or its part is outside the lent words.
    Phrase = 8,

    // A rank asked about is above V.
    AskedRank = 9,

    // An offset is outside -16 to 16.
    Offset = 10,

    // A place or ordinal is outside its range, or a listing's next place is above n.
    Place = 11,

    // A page has length 0, an answer slice is shorter than two elements a question, or one of counts
    // than one a document.
    Page = 12,

    // A word list breaks a rule.
    WordList = 13,

    // A word of the plain text is not in the list.
    Unlisted = 14,

    // A stream has a codeword of over three bytes, or ends inside one.
    Stream = 15,

    // Four sizes that are handed back are not those of the text.
    Sizes = 16,

    // A plain text has more bytes, or more distinct words, than a word list is made of.
    ListMaking = 17,

    // A letter table breaks a rule.
    Table = 18,

    // Document starts break a rule.
    Documents = 19,
}

impl Refusal {
    // The number of a refusal.
    pub fn number(self) -> u32
        ensures { result ≡ number_of self }
    {
        self as u32
    }
}

// How a call is refused: why, and the place or byte offset that is returned with it, 0 where there is
// none.
#[derive(Clone, Copy, PartialEq, Eq, Debug)]
pub struct Refused {
    pub refusal: Refusal,
    pub at: usize,
}

impl From<Refusal> for Refused {
    ghost from_gives = { λ refusal e. e ≡ refused_by refusal };

    fn from(refusal: Refusal) -> Refused {
        Refused { refusal, at: 0 }
    }
}
