// The library for C and Rust: every public operation over lent slices and plain numbers, with one form of answer.
#![tactic(auto)]

pub mod batches;
pub mod checking;
pub mod evidence;
pub mod operations;
pub mod patterns;
pub mod texts;
pub mod trees;
pub mod verdicts;
