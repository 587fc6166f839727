// Pages of a listing of the hits of any test of places, and lists of page calls. What a page comes to
// and what it is for a list of calls to be complete is defined in `specs/`; the laws, the theorem that
// every list of calls is complete, and the turns of the loops that fill a page and count hits are in
// `proofs/`. There is no code: a listing brings its own test, state and refusals.
#![tactic(auto)]
