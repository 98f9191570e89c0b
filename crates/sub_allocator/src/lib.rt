// What a block of either kind is asked and what it answers, as the Rust's trait SubAllocator has it for both.
#![tactic(auto)]

pub mod answers;
pub mod request;
