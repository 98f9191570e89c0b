// The chunk table as lent words: where each of them stands.
#![tactic(auto)]

pub mod layout;
