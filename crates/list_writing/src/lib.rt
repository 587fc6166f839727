// The list and the ranks of a plain text of which all is noted: whether they have room, and how they are
// written.
#![tactic(auto)]

mod lists;
mod noted_text;

pub use lists::{list_bytes, look_up, write_list};
pub use noted_text::NotedText;
