// The chip's rules are definitions (specs/) and theorems (proofs/); this crate has no function.
#![tactic(auto)]
