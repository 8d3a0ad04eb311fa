// One form of answer for every operation.
#![tactic(auto)]

pub mod answer;
