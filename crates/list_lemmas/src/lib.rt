//! Definitions and lemmas about lists, options, tests and numbers, which name no type of ours. There is no code here:
//! the proofs of the crates above cite the lemmas.
#![tactic(auto)]
