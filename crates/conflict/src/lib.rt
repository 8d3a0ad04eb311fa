#![tactic(auto)]

// Conflicts of a read with an update, as definitions (specs/) and laws (proofs/).
