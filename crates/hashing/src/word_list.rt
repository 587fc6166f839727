// A word list, by which letter table it is read, and how many words it has.

ghost use Rattle.std.specs.Prelude.{◌≡◌, length};
ghost use Rattle.lexicon.specs.Reading.{spellings};

use scanning::Letters;

// A word list, the letter table by which it is read, and the number of its words.
#[derive(Clone, Copy)]
pub struct WordList<'a> {
    pub letters: Letters<'a>,
    pub bytes: &'a [u8],
    pub size: usize,
    ghost counted: { size ≡ length (spellings letters.table.now bytes.now) },
}
