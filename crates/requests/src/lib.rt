// Theorems (proofs/) on the program's request writer and request reader together; this crate has no function.
#![tactic(auto)]
