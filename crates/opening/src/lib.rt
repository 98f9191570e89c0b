// A free-list block on lent words: made anew, looked at before every call, and asked.
#![tactic(auto)]

pub mod creation;
pub mod look;
pub mod questions;
