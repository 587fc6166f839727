// A sheet of questions: what the call returns and writes is defined in `specs/`, and `proofs/` has
// the laws about it. There is no code.
#![tactic(auto)]
