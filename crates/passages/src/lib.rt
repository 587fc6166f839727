// The ranks of a passage of the text, read word by word.
//
// No function of this crate is an entry: an indexed text has passed the check.
#![tactic(auto)]

ghost use Rattle.std.specs.Prelude.{◌≡◌, ◌+◌, ◌≤◌, length, take, drop};
ghost use Rattle.words.specs.Texts.{text_of};

use tree::Place;
use words::indexed_text::IndexedText;

// Fills a slice with the ranks from a place on.
pub fn read_passage(text: &IndexedText, place: Place, ranks: &mut [u32])
    requires { place.0 + length ranks.old ≤ length (text_of text.now) }
    ensures { ranks.new ≡ take (length ranks.old) (drop place.0 (text_of text.now)) }
{
    for (i, rank) in ranks.iter_mut().enumerate() {
        let at = Place(place.0 + i);
        *rank = text.word_at(at);
    }
}
