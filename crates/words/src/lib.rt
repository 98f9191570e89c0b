// The chunk table as lent words: how a fresh one is written. What they mean is in specs/.
#![tactic(auto)]

pub mod fresh;
pub mod ranges;
pub mod sound;
