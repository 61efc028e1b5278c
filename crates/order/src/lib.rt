// Demand 3: which writes may be sent in any order. Statements and proofs over the calls of the crates below; no code of its own.
#![tactic(auto)]
