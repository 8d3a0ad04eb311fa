#![tactic(auto)]

// Patterns as text, as definitions (specs/) and laws (proofs/). There is no code here: the crates above cite both.
