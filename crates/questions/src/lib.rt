// Questions about the text of an index: the question record, with a maker a kind. What is answered,
// and the passage that is read, is defined in `specs/`; the laws of the answers are in `proofs/`.
#![tactic(auto)]

pub mod kind;

ghost use Rattle.std.specs.Prelude.{◌≡◌};
ghost use Rattle.questions.specs.Makers.{asks_word_at, asks_occurrences_below, asks_place_of, asks_neighbours, asks_phrase};

use kind::Kind;

// A question: its kind, ranks w and v, offset d, number p, and a part of the lent phrase words.
#[repr(C)]
#[derive(Clone, Copy)]
pub struct Question {
    pub kind: u32,
    pub w: u32,
    pub v: u32,
    pub d: i32,
    pub p: usize,
    pub start: usize,
    pub length: usize,
}

impl Question {
    // The offset runs from -MAX_OFFSET to MAX_OFFSET.
    pub const MAX_OFFSET: i32 = 16;

    // A phrase has up to MAX_PHRASE words.
    pub const MAX_PHRASE: usize = 16;

    // Kind 1: the rank at place p.
    pub fn word_at(p: usize) -> Question
        ensures { result ≡ asks_word_at p }
    {
        Question {
            kind: Kind::WordAt as u32,
            w: 0,
            v: 0,
            d: 0,
            p,
            start: 0,
            length: 0,
        }
    }

    // Kind 2: how often w stands at places below p.
    pub fn occurrences_below(w: u32, p: usize) -> Question
        ensures { result ≡ asks_occurrences_below w p }
    {
        Question {
            kind: Kind::OccurrencesBelow as u32,
            w,
            v: 0,
            d: 0,
            p,
            start: 0,
            length: 0,
        }
    }

    // Kind 3: the place of the p-th w, counted from 1.
    pub fn place_of(w: u32, p: usize) -> Question
        ensures { result ≡ asks_place_of w p }
    {
        Question {
            kind: Kind::PlaceOf as u32,
            w,
            v: 0,
            d: 0,
            p,
            start: 0,
            length: 0,
        }
    }

    // Kind 4: how often w has v at the offset d.
    pub fn neighbours(w: u32, v: u32, d: i32) -> Question
        ensures { result ≡ asks_neighbours w v d }
    {
        Question {
            kind: Kind::Neighbours as u32,
            w,
            v,
            d,
            p: 0,
            start: 0,
            length: 0,
        }
    }

    // Kind 5: how often the phrase in this part of the lent words stands.
    pub fn phrase(start: usize, length: usize) -> Question
        ensures { result ≡ asks_phrase start length }
    {
        Question {
            kind: Kind::Phrase as u32,
            w: 0,
            v: 0,
            d: 0,
            p: 0,
            start,
            length,
        }
    }
}
