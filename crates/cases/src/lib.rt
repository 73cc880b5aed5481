// The cases P1 to P11 of the scope: all of this crate is in specs/ (the table) and proofs/ (that it holds).

#![tactic(auto)]
