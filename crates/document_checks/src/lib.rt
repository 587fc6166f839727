// The check of an index together with the document starts that are brought with it, which every call
// that brings starts makes first.
#![tactic(auto)]

ghost use Rattle.std.specs.Prelude.{◌≡◌};
ghost use Rattle.base.specs.Outcomes.{test_answer};
ghost use Rattle.dense.specs.Code.{Closing};
ghost use Rattle.index.specs.Lent.{slices_of};
ghost use Rattle.questions.specs.Answering.{check_answer_in};

use base::refusal::{Refusal, Refused};
use index::LentIndex;

// Checks an index, and then the document starts of its text: refusals 1, 3, 6 and 19.
pub fn check_in_documents(index: &LentIndex, documents: &[u32]) -> Result<(), Refused>
    requires { Closing index.now.s }
    ensures { test_answer result ≡ check_answer_in index.now.s index.now.shape (slices_of index.now) documents.now }
{
    checking::check_of(index)?;
    if !documents::are_starts(documents, words::text_length(index.lengths)) {
        return Err(Refusal::Documents.into());
    }
    Ok(())
}
