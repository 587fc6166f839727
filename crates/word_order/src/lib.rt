// The order of the words of a list that is made of a text: most frequent first, equal ones by first
// appearance. It is defined in `specs/`; that no order of the same words has a shorter stream, and the
// laws that the making of a list cites, are in `proofs/`. There is no code.
#![tactic(auto)]
