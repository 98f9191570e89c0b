// What a line asks for.
use sub_allocator::request::Request;

// A block of a size with so many slots, or a call on the block at hand.
#[derive(Clone, Copy, Debug, PartialEq, Eq)]
pub enum Call {
    New { size: u64, slots: u64 },
    Allocate(Request),
    Free(u64),
}
