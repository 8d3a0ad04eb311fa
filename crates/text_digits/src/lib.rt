#![tactic(auto)]

// The hexadecimal digits of words, as definitions (specs/) and laws (proofs/). There is no code here: the crates above cite both.
