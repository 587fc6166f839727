// Plain text through a word list: the entry `read_text`, and the same with any table that keeps the
// rule.
#![tactic(auto)]

ghost use Rattle.std.specs.Prelude.{◌≡◌, length};
ghost use Rattle.base.specs.Outcomes.{answer_of};
ghost use Rattle.lexicon.specs.Letters.{letters as lettersOf};
ghost use Rattle.lexicon.specs.Reading.{text_words, read_text_answer, read_text_exit};
ghost use Rattle.plain_text.specs.Sizes.{sizes_answer, Sized};

use base::Answer;
use base::refusal::{Refusal, Refused};
use hashing::{Slots, WordList};
use scanning::Letters;

// The number of words of a text, if the tests of the sizes pass: of a list of so many words, of the text,
// and of a slice of so many elements.
fn tested_size(letters: &Letters, words: usize, text: &[u8], room: usize) -> Result<usize, Refused>
    ensures { answer_of result ≡ sizes_answer words (length (text_words letters.now.table.now text.now)) room }
{
    if words < 1 || base::MAX_VOCABULARY < words {
        return Err(Refusal::Vocabulary.into());
    }
    let size = letters.text_size(text);
    if base::MAX_WORDS < size {
        return Err(Refusal::Words.into());
    }
    if room < size {
        return Err(Refusal::ShortSlice.into());
    }
    Ok(size)
}

// Reads a plain text, whose size no test refuses, through a word list whose words are written as they
// must be.
fn read_by_written(
    list: &WordList,
    text: &[u8],
    size: usize,
    ranks: &mut [u32],
) -> Result<usize, Refused>
    requires { Sized list.now.letters.table.now list.now.bytes.now list.now.size text.now size ranks.old }
    ensures { (answer_of result ≡ read_text_answer list.now.letters.table.now list.now.bytes.now text.now ranks.old) × (ranks.new ≡ read_text_exit list.now.letters.table.now list.now.bytes.now text.now ranks.old) }
{
    let mut slots = Slots::new();
    let (heads, links, starts) = (&mut slots.heads, &mut slots.links, &mut slots.starts);
    if !list_rules::is_distinct(list, heads, links, starts) {
        return Err(Refusal::WordList.into());
    }
    if let Some(at) = lookup::first_unlisted(list, heads, links, starts, text, size) {
        return Err(Refused {
            refusal: Refusal::Unlisted,
            at,
        });
    }
    ranking::write_ranks(list, heads, links, starts, text, size, ranks);
    Ok(size)
}

// Reads a plain text through a word list with a table that keeps the rules: the answer and the slice
// are those of paper 01.
pub fn read_text_by(
    letters: &Letters,
    list: &[u8],
    text: &[u8],
    ranks: &mut [u32],
) -> Result<usize, Refused>
    ensures { (answer_of result ≡ read_text_answer letters.now.table.now list.now text.now ranks.old) × (ranks.new ≡ read_text_exit letters.now.table.now list.now text.now ranks.old) }
{
    let words = list_rules::list_size(list);
    let size = tested_size(letters, words, text, ranks.len())?;
    if !list_rules::is_written(letters, list) {
        return Err(Refusal::WordList.into());
    }
    let written = WordList {
        letters: *letters,
        bytes: list,
        size: words,
    };
    read_by_written(&written, text, size, ranks)
}

// Reads a plain text through a word list into the front of a slice: the rank of each word, folded by
// the letter table. It answers the number of words. Refusals 1, 2, 5, 13, and 14 with the byte
// offset of the first word that is not in the list, leave the slice as it was.
pub fn read_text(list: &[u8], text: &[u8], ranks: &mut [u32]) -> Answer
    ensures { (result ≡ read_text_answer lettersOf list.now text.now ranks.old) × (ranks.new ≡ read_text_exit lettersOf list.now text.now ranks.old) }
{
    read_text_by(&Letters::built_in(), list, text, ranks).into()
}
