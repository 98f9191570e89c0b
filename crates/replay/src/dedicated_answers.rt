// Whether the calls of a dedicated block answer as a recorded line says. Its record is in three words of the store.
use dedicated::record::{AllocationReport, DedicatedBlock};
use dedicated::{creation, questions};
use dedicated_lent::kept;
use recorded_blocks::calls::SubAllocator;
use recorded_blocks::{Store, calls};
use refusals::Refusal;
use sub_allocator::answers::Placement;
use sub_allocator::request::Request;

// A dedicated block, a copy of which is lent to each call: what became of it is kept.
#[derive(Clone, Copy)]
struct Dedicated(DedicatedBlock);

impl SubAllocator for Dedicated {
    fn allocate(&mut self, request: Request) -> Result<Placement, Refusal> {
        let (placement, after) = kept::allocate(self.0, request)?;
        self.0 = after;
        Ok(placement)
    }

    fn free(&mut self, id: u64) -> Result<(), Refusal> {
        self.0 = kept::free(self.0, id)?;
        Ok(())
    }

    fn rename_allocation(&mut self, id: u64, label: u64) -> Result<(), Refusal> {
        self.0 = kept::rename_allocation(self.0, id, label)?;
        Ok(())
    }

    fn left(&self) -> Option<(u64, u64)> {
        let allocated = questions::allocated(self.0).ok()?;
        Some((allocated, self.0.label))
    }
}

// A refusal leaves the block that is there.
fn creation_agrees(store: &mut Store, size: u64, number: u64) -> bool {
    match creation::new(size) {
        Ok(block) => {
            store.put(block.into());
            number == 0 && Dedicated(block).left() == Some((0, 0))
        }
        Err(refusal) => u64::from(refusal) == number,
    }
}

// The block at hand, if that is a dedicated one: a table has more than three words.
fn block_in(store: &Store) -> Option<DedicatedBlock> {
    match *store.lent() {
        [size, allocated, label] => Some(DedicatedBlock::from([size, allocated, label])),
        _ => None,
    }
}

fn call_agrees(store: &mut Store, fields: &[u64]) -> bool {
    let Some(block) = block_in(store) else {
        return false;
    };
    let mut lent = Dedicated(block);
    let agrees = calls::call_agrees(&mut lent, fields);
    store.put(lent.0.into());
    agrees
}

fn report_agrees(store: &Store, told: AllocationReport) -> bool {
    block_in(store).is_some_and(|block| questions::report_allocations(block) == Ok(told))
}

pub fn agrees(store: &mut Store, fields: &[u64]) -> bool {
    match *fields {
        [10, size, number] => creation_agrees(store, size, number),
        [11..=13, ..] => call_agrees(store, fields),
        [14, first_byte, size, label] => report_agrees(
            store,
            AllocationReport {
                first_byte,
                size,
                label,
            },
        ),
        _ => false,
    }
}
