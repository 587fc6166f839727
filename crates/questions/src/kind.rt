// The kinds of questions, by their numbers.

ghost use Rattle.questions.specs.Kinds.{NamesKind};

use base::refusal::Refusal;

// What a question asks for.
#[derive(Clone, Copy, PartialEq, Eq, Debug)]
pub enum Kind {
    // The rank at a place.
    WordAt = 1,

    // How often a rank stands at places below one.
    OccurrencesBelow = 2,

    // The place of an occurrence of a rank.
    PlaceOf = 3,

    // How often a rank has another at an offset.
    Neighbours = 4,

    // How often a phrase stands.
    Phrase = 5,
}

impl TryFrom<u32> for Kind {
    type Error = Refusal;

    ghost try_from_gives = { NamesKind };

    fn try_from(number: u32) -> Result<Kind, Refusal> {
        match number {
            1 => Ok(Kind::WordAt),
            2 => Ok(Kind::OccurrencesBelow),
            3 => Ok(Kind::PlaceOf),
            4 => Ok(Kind::Neighbours),
            5 => Ok(Kind::Phrase),
            _ => Err(Refusal::Kind),
        }
    }
}
