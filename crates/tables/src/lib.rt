// Tables: what a refusal is, the limits, and the words of a table.
#![tactic(auto)]

pub mod limits;
pub mod refusal;
pub mod words;
