// The plan of a batch: each update's number, and for each read the slot before which it may not run.
#![tactic(auto)]

pub mod plan;
