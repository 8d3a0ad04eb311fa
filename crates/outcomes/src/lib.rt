// What operations find or do, where it is more than a number.
#![tactic(auto)]

pub mod frames;
pub mod numbers;
pub mod updates;
