// Reading a document: which of its used nodes a pattern selects, and at which a wanted step of it stands.
#![tactic(auto)]

mod nodes;
mod pass;
pub mod read;
mod row;
mod wanted;
