// The tests of a phrase that is a part of the lent words, which every call about a phrase makes,
// whether it has an absent word, and the count of a phrase of no words, which needs nothing else. No
// function of this crate is an entry.
#![tactic(auto)]

ghost use Rattle.std.specs.Prelude.{ℕ, ◌+◌, ◌≤◌, ◌≡◌, List, length, MatchResult};
ghost use Rattle.base.specs.Texts.{max_words};
ghost use Rattle.base.specs.Outcomes.{number_of, answer_of};
ghost use Rattle.questions.specs.Answering.{has_absent, phrase_in, phrase_refusal, phrase_answer};

use base::refusal::{Refusal, Refused};
use questions::Question;

// Whether a phrase has an absent word, whose rank is the vocabulary's size.
pub fn has_absent(vocabulary: usize, phrase: &[u32]) -> bool
    ensures { result ≡ has_absent vocabulary phrase.now }
{
    phrase.iter().any(|&rank| rank as usize == vocabulary)
}

// The phrase in a part of the lent words. Refusals 8 and 9: its part lies in the lent words, has up
// to 16 of them, and none is above the vocabulary's size. One of no words lies in them if it starts
// among them or at their end.
pub fn phrase_in<'a>(
    vocabulary: usize,
    words: &'a [u32],
    start: usize,
    count: usize,
) -> Result<&'a [u32], Refusal>
    ensures { MatchResult result (λ phrase. (phrase_refusal vocabulary words.now start count ≡ 0) × (phrase.now ≡ phrase_in words.now start count)) (λ e. phrase_refusal vocabulary words.now start count ≡ number_of e) }
{
    if Question::MAX_PHRASE < count {
        return Err(Refusal::Phrase);
    }
    if words.len() < start {
        return Err(Refusal::Phrase);
    }
    if words.len() - start < count {
        return Err(Refusal::Phrase);
    }
    let phrase = &words[start..start + count];
    if phrase.iter().any(|&rank| vocabulary < rank as usize) {
        return Err(Refusal::AskedRank);
    }
    Ok(phrase)
}

// Kind 5 of a phrase of no words, in a text of n words: it stands at every place from 0 to n, if it
// starts among the lent words or at their end.
pub fn answer_no_words(words: &[u32], start: usize, n: usize) -> Result<usize, Refused>
    requires { n ≤ max_words }
    ensures { (vocab : ℕ) (t documents : List ℕ) → length t ≡ n → answer_of result ≡ phrase_answer vocab t documents words.now start 0 }
{
    if start <= words.len() {
        return Ok(n + 1);
    }
    Err(Refusal::Phrase.into())
}
