#![tactic(auto)]

// The customer's three demands, each one statement over the public promises (specs/), proved by citing the laws (proofs/). There is no code here.
