// The line reader of the text program: a line's bytes, one after the other, and what the line asks for.
#![tactic(auto)]

pub mod asked;
pub mod line;
