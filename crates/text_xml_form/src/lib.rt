#![tactic(auto)]

// Tags that are read, as definitions (specs/) and laws (proofs/). There is no code here: the crates above cite both.
