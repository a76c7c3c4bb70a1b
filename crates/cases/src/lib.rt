// The worked cases are a table (specs/) and one claim over it (proofs/); this crate has no function.
#![tactic(auto)]
