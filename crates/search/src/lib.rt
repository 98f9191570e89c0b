// What is looked up in a sound table: where a request fits, and which slot is meant.
#![tactic(auto)]

pub mod best;
pub mod empty;
pub mod fit;
mod held;
pub mod live;
mod scan;
