#![tactic(auto)]

// A batch run after a compaction and without it, as definitions (specs/) and laws (proofs/). There is no code here: the demands cite both.
