// What is said on refusal: all of this crate is in specs/ (what is believed) and proofs/ (the laws).

#![tactic(auto)]
