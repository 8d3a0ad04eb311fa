#![tactic(auto)]

// Selection and the three operations, as definitions (specs/) and laws (proofs/). There is no code here: the crates above cite both.
