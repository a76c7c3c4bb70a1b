// Definitions and proofs; no function.
#![tactic(auto)]
