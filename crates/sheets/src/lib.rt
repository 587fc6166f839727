// What a sheet of questions is answered by: its tests, and one question at a time. No function here
// is an entry.
#![tactic(auto)]

ghost use Rattle.std.specs.Prelude.{◌≡◌, true, ◌+◌, ◌*◌, ◌<◌, ◌≤◌, length, OnOk};
ghost use Rattle.base.specs.Answers.{written};
ghost use Rattle.base.specs.Outcomes.{answer_of};
ghost use Rattle.dense.specs.Code.{Closing};
ghost use Rattle.index.specs.Lent.{slices_of};
ghost use Rattle.starts.specs.Starts.{max_starts, NodeStarts};
ghost use Rattle.words.specs.Texts.{text_of, vocabulary_of};
ghost use Rattle.documents.specs.Documents.{is_ascending};
ghost use Rattle.questions.specs.Answering.{question_answer};
ghost use Rattle.sheet_calls.specs.Sheets.{pair_of, sheet_answer};

use base::Answer;
use base::refusal::{Refusal, Refused};
use index::LentIndex;
use questions::Question;
use words::indexed_text::IndexedText;

// The number of elements of the answers of a sheet of so many questions whose pairs go into a slice of
// so many elements, over an index and the starts of its documents. Where nothing refuses, the starts
// ascend, and the table has where each node starts.
pub fn prepare(
    index: &LentIndex,
    documents: &[u32],
    asked: usize,
    room: usize,
    starts: &mut [u32],
) -> Result<usize, Refused>
    requires { Closing index.now.s × (max_starts ≤ length starts.old) }
    ensures answered { answer_of result ≡ sheet_answer index.now.s index.now.shape (slices_of index.now) documents.now asked room }
    ensures ready { OnOk result ((is_ascending documents.now ≡ true) × NodeStarts index.now.lengths.now starts.new) }
{
    document_checks::check_in_documents(index, documents)?;
    if room / 2 < asked {
        return Err(Refusal::Page.into());
    }
    starts::node_starts(index.lengths, starts);
    Ok(2 * asked)
}

// Answers question i of a sheet inside the documents, and writes its pair, the refusal or 0 and the
// value, at its place among the answers.
pub fn answer_one(
    text: &IndexedText,
    documents: &[u32],
    words: &[u32],
    question: Question,
    answers: &mut [u32],
    i: usize,
)
    requires { (is_ascending documents.now ≡ true) × (2 * i + 1 < length answers.old) }
    ensures { answers.new ≡ written (pair_of (question_answer (vocabulary_of text.now) (text_of text.now) documents.now words.now question)) (2 * i) answers.old }
{
    let answer = Answer::from(answering::answer(text, documents, words, question));
    answers[2 * i] = answer.refusal;
    answers[2 * i + 1] = answer.value as u32;
}
