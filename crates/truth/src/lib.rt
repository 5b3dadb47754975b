// Truth values that stand for statements, and rules computed over a table: laws for the proofs of every crate, in proofs/; there is no code.
#![tactic(auto)]
