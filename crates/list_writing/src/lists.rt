// How the list and the ranks of a plain text are written, by what is noted of its words.

ghost use Rattle.std.specs.Prelude.{◌≡◌, [], ◌∷◌, ◌++◌, map, suc, ◌+◌, ◌≤◌, length, get_or, take};
ghost use Rattle.base.specs.Answers.{front, written};
ghost use Rattle.base.specs.Lists.{Below};
ghost use Rattle.lexicon.specs.Letters.{line_feed};
ghost use Rattle.list_calls.specs.Making.{max_list_text, made_words, made_list};
ghost use Rattle.list_writing.specs.Noted.{WordsNoted};
ghost use Rattle.scanning.specs.Scans.{run_at};

use scanning::Letters;

// The number of bytes of the list of so many words.
pub fn list_bytes(
    letters: &Letters,
    text: &[u8],
    starts: &[usize],
    order: &[u32],
    words: usize,
) -> usize
    requires { let table = letters.now.table.now in WordsNoted table text.now starts.now order.now × (words ≡ length (made_words table text.now)) × (length text.now ≤ max_list_text) }
    ensures { result ≡ length (made_list letters.now.table.now text.now) }
{
    let mut bytes: usize = 0;
    for rank in 0..words {
        let place = order[rank] as usize;
        let start = starts[place];
        let scan = letters.scan_word(text, start);
        bytes += scan.end - start + 1;
    }
    bytes
}

// Writes the word that begins at a position of a text, folded and closed, from a position of a slice
// on. It gives the position behind it.
fn write_spelling(letters: &Letters, text: &[u8], start: usize, list: &mut [u8], at: usize) -> usize
    requires { let word = run_at letters.now.table.now text.now start in (start ≤ length text.now) × (at + suc (length word) ≤ length list.old) }
    ensures { let word = run_at letters.now.table.now text.now start in (result ≡ at + suc (length word)) × (list.new ≡ written (word ++ line_feed ∷ []) at list.old) }
{
    // A letter of 0 ends the word, at no place that is known before; a range has to have an end.
    let mut i: usize = 0;
    let mut letter = letters.letter_at(text, start);
    while 0 < letter {
        list[at + i] = letter;
        i += 1;
        letter = letters.letter_at(text, start + i);
    }
    list[at + i] = b'\n';
    at + i + 1
}

// Writes the list of so many words to the front of a slice.
pub fn write_list(
    letters: &Letters,
    text: &[u8],
    starts: &[usize],
    order: &[u32],
    words: usize,
    list: &mut [u8],
)
    requires { let table = letters.now.table.now in WordsNoted table text.now starts.now order.now × (words ≡ length (made_words table text.now)) × (length (made_list table text.now) ≤ length list.old) }
    ensures { list.new ≡ front (made_list letters.now.table.now text.now) list.old }
{
    let mut at: usize = 0;
    for rank in 0..words {
        let place = order[rank] as usize;
        let start = starts[place];
        at = write_spelling(letters, text, start, list, at);
    }
}

// Writes to the front of a slice, for each of so many places, what a table has there.
pub fn look_up(places: &[u32], size: usize, values: &[u32], ranks: &mut [u32])
    requires { (size ≤ length places.now) × Below (length values.now) (take size places.now) × (size ≤ length ranks.old) }
    ensures { ranks.new ≡ front (map (λ p. get_or values.now p 0) (take size places.now)) ranks.old }
{
    for i in 0..size {
        let place = places[i] as usize;
        ranks[i] = values[place];
    }
}
