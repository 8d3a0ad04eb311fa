#![tactic(auto)]

// A batch run call by call, as definitions (specs/) and laws (proofs/). There is no code here: the demands cite both.
