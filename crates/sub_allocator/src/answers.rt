// What an accepted request is told.

// The offset, and the id that it is given back by.
#[derive(Clone, Copy, Debug, PartialEq, Eq)]
pub struct Placement {
    pub offset: u64,
    pub id: u64,
}
