#![tactic(auto)]

// Trees as nested tags, as definitions (specs/) and laws (proofs/). There is no code here: the crates above cite both.
