// What the demands say of the answers: all of this crate is in specs/ and proofs/.

#![tactic(auto)]
