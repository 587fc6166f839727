// A word list out of a plain text: the entry `make_list`, and the same with any table that keeps the
// rule.
#![tactic(auto)]

ghost use Rattle.std.specs.Prelude.{◌≡◌};
ghost use Rattle.lexicon.specs.Letters.{letters as lettersOf};
ghost use Rattle.list_calls.specs.Making.{list_made, make_list_exit, make_ranks_exit};
ghost use Rattle.list_calls.specs.Outcomes.{list_made_of};

use base::refusal::{Refusal, Refused};
use list_calls::{ListMade, Made};
use list_tables::ListTables;
use scanning::Letters;

// The most bytes of a text that a list is made of.
pub const MAX_LIST_TEXT: usize = 65536;

// Makes a word list of a plain text with a table that keeps the rules: all that is returned and written
// is as paper 02 says.
pub fn make_list_by(
    letters: &Letters,
    text: &[u8],
    list: &mut [u8],
    ranks: &mut [u32],
) -> Result<Made, Refused>
    ensures { (list_made_of result ≡ list_made letters.now.table.now text.now list.old ranks.old) × (list.new ≡ make_list_exit letters.now.table.now text.now list.old ranks.old) × (ranks.new ≡ make_ranks_exit letters.now.table.now text.now list.old ranks.old) }
{
    if MAX_LIST_TEXT < text.len() {
        let size = letters.text_size(text);
        if base::MAX_WORDS < size {
            return Err(Refusal::Words.into());
        }
        return Err(Refusal::ListMaking.into());
    }
    ListTables::new().make_list(letters, text, list, ranks)
}

// Makes a word list of a plain text, whose words are folded by the letter table: the list of its
// distinct words, most frequent first and equal ones by first appearance, to the front of one slice,
// and the rank of each word of the text to the front of the other. It gives how many elements of
// each it has written. Refusals 2, 17 and 5, in this order, leave both slices as they were.
pub fn make_list(text: &[u8], list: &mut [u8], ranks: &mut [u32]) -> ListMade
    ensures { (result ≡ list_made lettersOf text.now list.old ranks.old) × (list.new ≡ make_list_exit lettersOf text.now list.old ranks.old) × (ranks.new ≡ make_ranks_exit lettersOf text.now list.old ranks.old) }
{
    make_list_by(&Letters::built_in(), text, list, ranks).into()
}
