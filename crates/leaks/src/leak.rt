// What a step of the walk hands out.

// A live chunk; its size has the padding in it.
#[derive(Clone, Copy, Debug, PartialEq, Eq)]
pub struct Leak {
    pub id: u64,
    pub first_byte: u64,
    pub size: u64,
    pub kind: u64,
    pub label: u64,
}
