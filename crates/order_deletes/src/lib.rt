#![tactic(auto)]

// Deletes called one after another, as definitions (specs/) and laws (proofs/). There is no code here: the demands cite both.
