// No function: `proofs/` computes one run of files on one slot of each kind, and that it meets what the theorems of `rules` ask for. It
// is a crate of its own because it is computed, and an edited definition of `rules` is to be refused by a law.

#![tactic(auto)]
