#![tactic(auto)]

// Updating a document: what delete and insert promise, as definitions (specs/) and laws (proofs/). The code is in `doc_delete` and `doc_insert`.
