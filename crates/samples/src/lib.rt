// The examples of paper 01 that are to be proved, as one group, and samples of absent words: the crate
// is the definitions and the theorems.
#![tactic(auto)]
