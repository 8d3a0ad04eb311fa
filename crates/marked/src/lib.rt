#![tactic(auto)]

// The marked examples P1 to P15, as one list of data (specs/) with one proved claim over it (proofs/). There is no code here.
