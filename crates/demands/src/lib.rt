// Document 01's demands on every call: no input stops it, one outcome, and the readings. Statements and proofs over the calls of the
// crates below; no code of its own.
#![tactic(auto)]
