#![tactic(auto)]

// Mending: definitions and laws only.
