// A plain text of which all is noted: its list and its ranks are written where both have room.

ghost use Rattle.list_writing.specs.Noted.{AllNoted};

use crate::lists::{list_bytes, look_up, write_list};
use base::refusal::{Refusal, Refused};
use list_calls::Made;
use scanning::Letters;

// A text of which all is noted that its list and its ranks are written by: how many words it has, how
// many of them are distinct, where each word begins, at which place the word of each rank stands, the
// place at which each word appears first, and the rank of the word that appears first at a place.
#[derive(Clone, Copy)]
pub struct NotedText<'a> {
    pub letters: &'a Letters<'a>,
    pub text: &'a [u8],
    pub size: usize,
    pub words: usize,
    pub starts: &'a [usize],
    pub order: &'a [u32],
    pub firsts: &'a [u32],
    pub values: &'a [u32],
    ghost noted: { AllNoted letters.now.table.now text.now starts.now order.now firsts.now values.now size words },
}

impl NotedText<'_> {
    ghost use Rattle.std.specs.Prelude.{◌≡◌};
    ghost use Rattle.list_calls.specs.Making.{list_made, make_list_exit, make_ranks_exit};
    ghost use Rattle.list_calls.specs.Outcomes.{list_made_of};

    // Writes the list of the text and its ranks, if both slices have room.
    pub fn write_made(&self, list: &mut [u8], ranks: &mut [u32]) -> Result<Made, Refused>
        ensures { (list_made_of result ≡ list_made self.now.letters.now.table.now self.now.text.now list.old ranks.old) × (list.new ≡ make_list_exit self.now.letters.now.table.now self.now.text.now list.old ranks.old) × (ranks.new ≡ make_ranks_exit self.now.letters.now.table.now self.now.text.now list.old ranks.old) }
    {
        let bytes = list_bytes(self.letters, self.text, self.starts, self.order, self.words);
        if list.len() < bytes || ranks.len() < self.size {
            return Err(Refusal::ShortSlice.into());
        }
        write_list(
            self.letters,
            self.text,
            self.starts,
            self.order,
            self.words,
            list,
        );
        look_up(self.firsts, self.size, self.values, ranks);
        Ok(Made {
            bytes,
            words: self.size,
        })
    }
}
