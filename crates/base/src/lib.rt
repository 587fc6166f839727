// What every crate of the engine shares: the answer of a call, the limits of paper 01, the table of
// refusals (`refusal`), and the search for a rank that is outside the vocabulary.
#![tactic(auto)]

pub mod refusal;

ghost use Rattle.std.specs.Prelude.{◌≡◌, min, leb};
ghost use Rattle.base.specs.Lists.{first_where};
ghost use Rattle.base.specs.Answers.{accepted};
ghost use Rattle.base.specs.Outcomes.{refused_answer, answer_of, test_answer};

use refusal::Refused;

// The most words of a vocabulary with 128 closing values.
pub const MAX_VOCABULARY: usize = 2113664;

// The most words of a text.
pub const MAX_WORDS: usize = 16777216;

// The most bytes of a stream or of the nodes of a text: three for each word.
pub const MAX_BYTES: usize = 50331648;

// The most bytes of a superblock.
pub const MAX_SUPERBLOCK: usize = 65535;

// The answer of a call: 0 and its value, or a refusal's number and what is returned with it.
#[repr(C)]
#[derive(Clone, Copy)]
pub struct Answer {
    pub refusal: u32,
    pub value: usize,
}

impl Answer {
    // The answer of an accepted call.
    pub fn accepted(value: usize) -> Answer
        ensures { result ≡ accepted value }
    {
        Answer { refusal: 0, value }
    }
}

impl From<Refused> for Answer {
    ghost from_gives = { λ refused answer. answer ≡ refused_answer refused };

    fn from(refused: Refused) -> Answer {
        Answer {
            refusal: refused.refusal.number(),
            value: refused.at,
        }
    }
}

impl From<Result<usize, Refused>> for Answer {
    ghost from_gives = { λ outcome answer. answer ≡ answer_of outcome };

    fn from(outcome: Result<usize, Refused>) -> Answer {
        match outcome {
            Ok(value) => Answer::accepted(value),
            Err(refused) => refused.into(),
        }
    }
}

impl From<Result<(), Refused>> for Answer {
    ghost from_gives = { λ outcome answer. answer ≡ test_answer outcome };

    fn from(outcome: Result<(), Refused>) -> Answer {
        match outcome {
            Ok(()) => Answer::accepted(0),
            Err(refused) => refused.into(),
        }
    }
}

// The smaller of two numbers.
pub fn least(a: usize, b: usize) -> usize
    ensures { result ≡ min a b }
{
    a.min(b)
}

// The first place of a text whose rank is not below the size of the vocabulary; the text's length
// where there is none.
pub fn first_outside(text: &[u32], vocabulary: usize) -> usize
    ensures { result ≡ first_where (λ w. leb vocabulary w) text.now }
{
    text.iter()
        .position(|rank| vocabulary <= *rank as usize)
        .unwrap_or(text.len())
}
