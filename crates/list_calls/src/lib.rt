// The call that makes a word list of a plain text: what it returns and writes is defined in `specs/`, over
// any letter table, and `proofs/` has the laws about it.
#![tactic(auto)]

ghost use Rattle.std.specs.Prelude.{◌≡◌};
ghost use Rattle.list_calls.specs.Outcomes.{list_made_of};

use base::Answer;
use base::refusal::Refused;

// What the making of a word list returns: its answer, how many bytes of the list and how many ranks
// of the text it has written; two zeros where it is refused.
#[repr(C)]
#[derive(Clone, Copy)]
pub struct ListMade {
    pub answer: Answer,
    pub bytes: usize,
    pub words: usize,
}

// How many bytes of a word list and how many ranks of the text are written.
#[derive(Clone, Copy)]
pub struct Made {
    pub bytes: usize,
    pub words: usize,
}

impl From<Result<Made, Refused>> for ListMade {
    ghost from_gives = { λ outcome made. made ≡ list_made_of outcome };

    fn from(outcome: Result<Made, Refused>) -> ListMade {
        match outcome {
            Ok(made) => ListMade {
                answer: Answer::accepted(0),
                bytes: made.bytes,
                words: made.words,
            },
            Err(refused) => ListMade {
                answer: Answer {
                    refusal: refused.refusal.number(),
                    value: refused.at,
                },
                bytes: 0,
                words: 0,
            },
        }
    }
}
