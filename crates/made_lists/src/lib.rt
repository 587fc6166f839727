// What the word list that is made of a plain text is, and what the call that makes it returns and
// writes: the crate is the theorem, over every letter table that keeps the rules. There is no code.
#![tactic(auto)]
