// The hash table of a part of a word list, in memory that is lent, and the look-up of a word in it.
#![tactic(auto)]

mod chain;
mod making;
mod part;
mod slots;
mod word_list;

pub use chain::{find, find_from};
pub use making::hash_part;
pub use part::Part;
pub use slots::{MAX_PART, Slots};
pub use word_list::WordList;
