// The definition of the server stands in specs/, and the theorems about it in proofs/. This crate has no code.
#![tactic(auto)]
