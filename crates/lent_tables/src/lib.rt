// The calls that are lent a letter table: the entries `read_text_with`, `find_word_with` and
// `make_list_with`, and the theorem about them and about the check of a table.
#![tactic(auto)]

ghost use Rattle.std.specs.Prelude.{◌≡◌};
ghost use Rattle.base.specs.Outcomes.{answer_of};
ghost use Rattle.list_calls.specs.Outcomes.{list_made_of};
ghost use Rattle.lent_tables.specs.Calls.{read_text_with_answer, read_text_with_exit, find_word_with_answer, list_made_with, make_list_with_exit, make_ranks_with_exit};

use base::Answer;
use base::refusal::Refused;
use list_calls::{ListMade, Made};
use scanning::Letters;

// Reads a plain text with a table that is lent, if it keeps the rules.
fn read_checked(table: &[u8], list: &[u8], text: &[u8], ranks: &mut [u32]) -> Result<usize, Refused>
    ensures { (answer_of result ≡ read_text_with_answer table.now list.now text.now ranks.old) × (ranks.new ≡ read_text_with_exit table.now list.now text.now ranks.old) }
{
    let letters = Letters::checked(table)?;
    plain_text::read_text_by(&letters, list, text, ranks)
}

// Reads a plain text through a word list into the front of a slice: the rank of each word, folded by
// the lent table. It answers the number of words. Refusals 18, then 1, 2, 5, 13, and 14 with the
// byte offset of the first word that is not in the list, all by the lent table, leave the slice as it
// was.
pub fn read_text_with(table: &[u8], list: &[u8], text: &[u8], ranks: &mut [u32]) -> Answer
    ensures { (result ≡ read_text_with_answer table.now list.now text.now ranks.old) × (ranks.new ≡ read_text_with_exit table.now list.now text.now ranks.old) }
{
    read_checked(table, list, text, ranks).into()
}

// Finds a spelled word with a table that is lent, if it keeps the rules.
fn find_checked(table: &[u8], list: &[u8], spelling: &[u8]) -> Result<usize, Refused>
    ensures { answer_of result ≡ find_word_with_answer table.now list.now spelling.now }
{
    let letters = Letters::checked(table)?;
    finding::find_word_by(&letters, list, spelling)
}

// Finds a spelled word, folded by the lent table, in a word list: it answers its rank, and the number
// of the list's words where the list lacks it, as it lacks an empty spelling and one with a
// separator. Refusals 18, then 1 and 13, by the lent table.
pub fn find_word_with(table: &[u8], list: &[u8], spelling: &[u8]) -> Answer
    ensures { result ≡ find_word_with_answer table.now list.now spelling.now }
{
    find_checked(table, list, spelling).into()
}

// Makes a word list with a table that is lent, if it keeps the rules.
fn make_checked(
    table: &[u8],
    text: &[u8],
    list: &mut [u8],
    ranks: &mut [u32],
) -> Result<Made, Refused>
    ensures { (list_made_of result ≡ list_made_with table.now text.now list.old ranks.old) × (list.new ≡ make_list_with_exit table.now text.now list.old ranks.old) × (ranks.new ≡ make_ranks_with_exit table.now text.now list.old ranks.old) }
{
    let letters = Letters::checked(table)?;
    list_making::make_list_by(&letters, text, list, ranks)
}

// Makes a word list of a plain text, whose words are folded by the lent table: the list to the front
// of one slice, and the rank of each word of the text to the front of the other. It gives how many
// elements of each it has written. Refusals 18, then 2, 17 and 5, leave both slices as they were.
pub fn make_list_with(table: &[u8], text: &[u8], list: &mut [u8], ranks: &mut [u32]) -> ListMade
    ensures { (result ≡ list_made_with table.now text.now list.old ranks.old) × (list.new ≡ make_list_with_exit table.now text.now list.old ranks.old) × (ranks.new ≡ make_ranks_with_exit table.now text.now list.old ranks.old) }
{
    make_checked(table, text, list, ranks).into()
}
