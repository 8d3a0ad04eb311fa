#![tactic(auto)]

// Wider reads, updates and batches than others, as definitions (specs/) and laws (proofs/): what conflicts still conflicts where it is made wider.
