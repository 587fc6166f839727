// A word list out of a plain text that is not too long for it, made in tables that are lent: the words
// are noted, counted, sorted and written.
#![tactic(auto)]

ghost use Rattle.std.specs.Prelude.{◌≡◌, ◌≤◌, length};
ghost use Rattle.list_calls.specs.Making.{max_list_text, list_made, make_list_exit, make_ranks_exit};
ghost use Rattle.list_calls.specs.Outcomes.{list_made_of};
ghost use Rattle.list_tables.specs.Tables.{Tables};

use base::refusal::{Refusal, Refused};
use list_calls::Made;
use list_writing::NotedText;
use scanning::{BUCKETS, Letters};

// The most words of a list that is made.
pub const MAX_LIST_WORDS: usize = 4096;

// The most words of a text of 65,536 bytes.
pub const MAX_TEXT_WORDS: usize = 32768;

// The tables in which a list is made: one with an element for each bucket, and four with one for each
// word of the longest text.
#[derive(Drop)]
pub struct ListTables {
    pub heads: [u32; BUCKETS],
    pub links: [u32; MAX_TEXT_WORDS],
    pub starts: [usize; MAX_TEXT_WORDS],
    pub firsts: [u32; MAX_TEXT_WORDS],
    pub counts: [u32; MAX_TEXT_WORDS],
}

impl ListTables {
    // Clear tables.
    pub fn new() -> ListTables
        ensures { Tables result.heads result.links result.starts result.firsts result.counts }
    {
        ListTables {
            heads: [0; BUCKETS],
            links: [0; MAX_TEXT_WORDS],
            starts: [0; MAX_TEXT_WORDS],
            firsts: [0; MAX_TEXT_WORDS],
            counts: [0; MAX_TEXT_WORDS],
        }
    }

    // Makes the list of a text that is not too long for it, in clear tables.
    pub fn make_list(
        &mut self,
        letters: &Letters,
        text: &[u8],
        list: &mut [u8],
        ranks: &mut [u32],
    ) -> Result<Made, Refused>
        requires { (length text.now ≤ max_list_text) × Tables self.old.heads self.old.links self.old.starts self.old.firsts self.old.counts }
        ensures { (list_made_of result ≡ list_made letters.now.table.now text.now list.old ranks.old) × (list.new ≡ make_list_exit letters.now.table.now text.now list.old ranks.old) × (ranks.new ≡ make_ranks_exit letters.now.table.now text.now list.old ranks.old) }
    {
        make_in_tables(
            letters,
            text,
            &mut self.heads,
            &mut self.links,
            &mut self.starts,
            &mut self.firsts,
            &mut self.counts,
            list,
            ranks,
        )
    }
}

// Makes the list of a text that is not too long for it, in tables that are lent.
pub fn make_in_tables(
    letters: &Letters,
    text: &[u8],
    heads: &mut [u32],
    links: &mut [u32],
    starts: &mut [usize],
    firsts: &mut [u32],
    counts: &mut [u32],
    list: &mut [u8],
    ranks: &mut [u32],
) -> Result<Made, Refused>
    requires { (length text.now ≤ max_list_text) × Tables heads.old links.old starts.old firsts.old counts.old }
    ensures { (list_made_of result ≡ list_made letters.now.table.now text.now list.old ranks.old) × (list.new ≡ make_list_exit letters.now.table.now text.now list.old ranks.old) × (ranks.new ≡ make_ranks_exit letters.now.table.now text.now list.old ranks.old) }
{
    let size = word_places::note_words(letters, text, heads, links, starts, firsts);
    let words = word_places::count_places(firsts, size, counts);
    if MAX_LIST_WORDS < words {
        return Err(Refusal::ListMaking.into());
    }
    heads.fill(0);
    counting_sort::order_places(counts, size, heads, links);
    let noted = NotedText {
        letters: &*letters,
        text: &*text,
        size,
        words,
        starts: &*starts,
        order: &*links,
        firsts: &*firsts,
        values: &*counts,
    };
    noted.write_made(list, ranks)
}
