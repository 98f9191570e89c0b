// The dedicated block: one allocation that takes all of it, in a small record, made and asked.
#![tactic(auto)]

pub mod creation;
pub mod questions;
pub mod record;
mod words;
