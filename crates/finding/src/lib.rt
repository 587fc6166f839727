// A spelled word, found in a word list: the entry `find_word`, and the same with any table that keeps
// the rules.
#![tactic(auto)]

ghost use Rattle.std.specs.Prelude.{◌≡◌, true, false};
ghost use Rattle.base.specs.Outcomes.{answer_of};
ghost use Rattle.base.specs.Texts.{outside};
ghost use Rattle.dense.specs.Code.{max_vocabulary};
ghost use Rattle.finding.specs.Finding.{word_rank, find_word_answer};
ghost use Rattle.hashing.specs.Parts.{words_of};
ghost use Rattle.lexicon.specs.Letters.{letters as lettersOf};
ghost use Rattle.lexicon.specs.Lexicon.{list_size, list_rank, is_written};
ghost use Rattle.scanning.specs.Scans.{run_at};

use base::Answer;
use base::refusal::{Refusal, Refused};
use hashing::{Slots, WordList};
use scanning::Letters;

// The number of words of a list before the first that is spelled as the word in front of a spelling;
// all of them where none is: what the call answers for a word that the list lacks is the number of its
// words, and no Option.
fn first_alike(list: &WordList, spelling: &[u8]) -> usize
    ensures { result ≡ list_rank (words_of list.now) (run_at list.now.letters.table.now spelling.now 0) }
{
    let letters = &list.letters;
    let mut at = letters.word_start(list.bytes, 0);
    for rank in 0..list.size {
        if letters.same_word(spelling, 0, list.bytes, at) {
            return rank;
        }
        let scan = letters.scan_word(list.bytes, at);
        at = letters.word_start(list.bytes, scan.end);
    }
    list.size
}

// The rank of a spelled word in a list whose words are written as they must be; their number where the
// list lacks it. A spelling with a separator is in no list.
fn rank_of(list: &WordList, spelling: &[u8]) -> usize
    requires { is_written list.now.letters.table.now list.now.bytes.now ≡ true }
    ensures { result ≡ word_rank list.now.letters.table.now list.now.bytes.now spelling.now }
{
    let scan = list.letters.scan_word(spelling, 0);
    if scan.end < spelling.len() {
        return list.size;
    }
    first_alike(list, spelling)
}

// Finds a spelled word in a list whose words are written as they must be.
fn find_by_written(list: &WordList, spelling: &[u8]) -> Result<usize, Refused>
    requires { (is_written list.now.letters.table.now list.now.bytes.now ≡ true) × (outside 1 (max_vocabulary 128) (list_size list.now.bytes.now) ≡ false) }
    ensures { answer_of result ≡ find_word_answer list.now.letters.table.now list.now.bytes.now spelling.now }
{
    let mut slots = Slots::new();
    if !list_rules::is_distinct(list, &mut slots.heads, &mut slots.links, &mut slots.starts) {
        return Err(Refusal::WordList.into());
    }
    Ok(rank_of(list, spelling))
}

// Finds a spelled word in a word list with a table that keeps the rules.
pub fn find_word_by(letters: &Letters, list: &[u8], spelling: &[u8]) -> Result<usize, Refused>
    ensures { answer_of result ≡ find_word_answer letters.now.table.now list.now spelling.now }
{
    let words = list_rules::list_size(list);
    if words < 1 || base::MAX_VOCABULARY < words {
        return Err(Refusal::Vocabulary.into());
    }
    if !list_rules::is_written(letters, list) {
        return Err(Refusal::WordList.into());
    }
    let written = WordList {
        letters: *letters,
        bytes: list,
        size: words,
    };
    find_by_written(&written, spelling)
}

// Finds a spelled word, folded by the letter table, in a word list: it answers its rank, and the number
// of the list's words where the list lacks it, as it lacks an empty spelling and one with a
// separator. Refusals 1 and 13.
pub fn find_word(list: &[u8], spelling: &[u8]) -> Answer
    ensures { result ≡ find_word_answer lettersOf list.now spelling.now }
{
    find_word_by(&Letters::built_in(), list, spelling).into()
}
