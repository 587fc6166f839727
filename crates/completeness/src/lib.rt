// Demand 3, that every list of page calls is complete, with document starts and without, and the
// pages of the phrase of no words: the crate is the theorem, over what the contracts of the calls
// cite. There is no code.
#![tactic(auto)]
