// The library for C: each export calls the function of its name in the crate sloefertand, and promises the same.
#![tactic(auto)]

mod batches;
mod checking;
mod evidence;
mod operations;
mod patterns;
mod texts;
mod trees;
mod verdicts;
