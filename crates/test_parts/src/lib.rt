// What the programs over small inputs share: small patterns and trees by number, rows by number, draws, digests and text to standard output.
#![tactic(auto)]

pub mod answers;
pub mod chosen;
pub mod digest;
pub mod numbering;
pub mod put;
pub mod rows;
pub mod show;
pub mod sums;
pub mod tally;
pub mod tree_tables;
pub mod ways;
pub mod wide;
