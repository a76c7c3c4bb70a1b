// The serial protocol's rules are definitions (specs/) and theorems (proofs/); this crate has no function.
#![tactic(auto)]
