// What plain text, its letters and its word list are (specs), the letter table over ISO 8859-1, and
// the check of a table that is lent.
#![tactic(auto)]

ghost use Rattle.std.specs.Prelude.{◌≡◌, ◌&&◌, length};
ghost use Rattle.base.specs.Outcomes.{test_answer};
ghost use Rattle.lexicon.specs.Letters.{letters, is_entry, keeps_entries, has_letter, is_table};
ghost use Rattle.lexicon.specs.Tables.{table_answer};

use base::Answer;
use base::refusal::{Refusal, Refused};

// The letter table: what each byte folds to, 0 for a separator.
pub const LETTERS: [u8; 256] = [
    0, 0, 0, 0, 0, 0, 0, 0, 0, 0, 0, 0, 0, 0, 0, 0, 0, 0, 0, 0, 0, 0, 0, 0, 0, 0, 0, 0, 0, 0, 0, 0,
    0, 0, 0, 0, 0, 0, 0, 0, 0, 0, 0, 0, 0, 0, 0, 0, 48, 49, 50, 51, 52, 53, 54, 55, 56, 57, 0, 0,
    0, 0, 0, 0, 0, 97, 98, 99, 100, 101, 102, 103, 104, 105, 106, 107, 108, 109, 110, 111, 112,
    113, 114, 115, 116, 117, 118, 119, 120, 121, 122, 0, 0, 0, 0, 0, 0, 97, 98, 99, 100, 101, 102,
    103, 104, 105, 106, 107, 108, 109, 110, 111, 112, 113, 114, 115, 116, 117, 118, 119, 120, 121,
    122, 0, 0, 0, 0, 0, 0, 0, 0, 0, 0, 0, 0, 0, 0, 0, 0, 0, 0, 0, 0, 0, 0, 0, 0, 0, 0, 0, 0, 0, 0,
    0, 0, 0, 0, 0, 0, 0, 0, 0, 0, 0, 0, 0, 0, 0, 0, 0, 0, 0, 0, 0, 0, 0, 0, 0, 0, 0, 0, 0, 0, 0, 0,
    0, 0, 0, 0, 0, 0, 0, 224, 225, 226, 227, 228, 229, 230, 231, 232, 233, 234, 235, 236, 237, 238,
    239, 240, 241, 242, 243, 244, 245, 246, 0, 248, 249, 250, 251, 252, 253, 254, 223, 224, 225,
    226, 227, 228, 229, 230, 231, 232, 233, 234, 235, 236, 237, 238, 239, 240, 241, 242, 243, 244,
    245, 246, 0, 248, 249, 250, 251, 252, 253, 254, 255,
];

// The letter table.
pub fn letter_table() -> [u8; 256]
    ensures { result ≡ letters }
{
    LETTERS
}

// Whether an entry is 0 or a byte that a table of 256 entries keeps.
fn is_entry(table: &[u8], x: u8) -> bool
    requires { length table.now ≡ 256 }
    ensures { result ≡ is_entry table.now x }
{
    x == 0 || table[usize::from(x)] == x
}

// Whether each of the 256 entries of a table is 0 or a byte that the table keeps, and some entry is
// not 0: one pass over them, where `all` and `any` would be two.
fn entries_pass(table: &[u8]) -> bool
    requires { length table.now ≡ 256 }
    ensures { result ≡ keeps_entries table.now && has_letter table.now }
{
    let mut some = false;
    for x in table {
        if !is_entry(table, *x) {
            return false;
        }
        some = some | (*x != 0);
    }
    some
}

// Whether a slice of any length is a letter table that keeps the rules.
pub fn is_table(table: &[u8]) -> bool
    ensures { result ≡ is_table table.now }
{
    table.len() == 256 && table[10] == 0 && entries_pass(table)
}

// Tests a letter table that somebody brings. Refusal 18.
pub fn test_table(table: &[u8]) -> Result<(), Refused>
    ensures { test_answer result ≡ table_answer table.now }
{
    if !is_table(table) {
        return Err(Refusal::Table.into());
    }
    Ok(())
}

// Checks a letter table that somebody brings: 0 is answered exactly if it keeps the rules. Refusal 18.
pub fn check_table(table: &[u8]) -> Answer
    ensures { result ≡ table_answer table.now }
{
    test_table(table).into()
}
