// No code: proofs/ puts the tables of all crates side by side, so that each function of C is seen to end where their code is.
#![tactic(auto)]
