// The live chunks of a table, by rising address: the search for the next one, and a step from a place.
#![tactic(auto)]

pub mod leak;
pub mod live;
pub mod steps;
