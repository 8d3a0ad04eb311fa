#![tactic(auto)]

// Identities: definitions and laws only.
