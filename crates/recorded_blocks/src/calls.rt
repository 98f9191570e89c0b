// The calls that both kinds of block have, as the Rust's trait SubAllocator has them, and whether they answer as a line says.
use refusals;
use refusals::Refusal;
use sub_allocator::answers::Placement;
use sub_allocator::request::Request;

pub trait SubAllocator {
    fn allocate(&mut self, request: Request) -> Result<Placement, Refusal>;

    fn free(&mut self, id: u64) -> Result<(), Refusal>;

    fn rename_allocation(&mut self, id: u64, label: u64) -> Result<(), Refusal>;

    // The bytes allocated, and the number by which a line knows the rest; None of what is not sound.
    fn left(&self) -> Option<(u64, u64)>;
}

// A refusal has no offset and no id: both are 0.
fn placement_agrees(answer: Result<Placement, Refusal>, number: u64, offset: u64, id: u64) -> bool {
    refusals::number(&answer) == number
        && answer.map_or((0, 0), |given| (given.offset, given.id)) == (offset, id)
}

// A line has the call's number, what is asked, the answer, and what is left. A free-list block's calls are 6 to 8, a dedicated one's 11 to 13.
pub fn call_agrees<B: SubAllocator>(block: &mut B, fields: &[u64]) -> bool {
    match *fields {
        [
            6 | 11,
            size,
            alignment,
            kind,
            granularity,
            label,
            number,
            offset,
            id,
            allocated,
            rest,
        ] => {
            let request = Request {
                size,
                alignment,
                kind,
                granularity,
                label,
            };
            placement_agrees(block.allocate(request), number, offset, id)
                && block.left() == Some((allocated, rest))
        }
        [7 | 12, id, number, allocated, rest] => {
            refusals::number(&block.free(id)) == number && block.left() == Some((allocated, rest))
        }
        [8 | 13, id, label, number, allocated, rest] => {
            refusals::number(&block.rename_allocation(id, label)) == number
                && block.left() == Some((allocated, rest))
        }
        _ => false,
    }
}
