// Names: the bytes that make them, and lists of names.
#![tactic(auto)]

mod classes;
pub mod letters;
pub mod names;
