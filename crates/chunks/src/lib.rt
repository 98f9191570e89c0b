// What a call does to one chunk of a table: each step writes only the words that change.
#![tactic(auto)]

pub mod labels;
pub mod taking;
