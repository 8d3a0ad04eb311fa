#![tactic(auto)]

// Compaction: definitions and laws only.
