// A chunk of a table cut in two, and two joined: each step writes only the words that change.
#![tactic(auto)]

pub mod joining;
mod links;
pub mod splitting;
