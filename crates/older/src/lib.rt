#![tactic(auto)]

// Installations with other limits, as definitions (specs/) and laws (proofs/). There is no code here: the demands cite both.
