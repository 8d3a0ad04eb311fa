#![tactic(auto)]

// Orders in which a batch may be run, as definitions (specs/) and laws (proofs/). There is no code here: the crates above cite both.
