// The calls that change a dedicated block, by value: the record goes in, and comes back where the call is accepted.
#![tactic(auto)]

ghost use Rattle.std.specs.Prelude.{◌≡◌};
ghost use Rattle.refusals.specs.Refusals.{fault_of};
ghost use Rattle.sub_allocator.specs.Requests.{request_of};
ghost use Rattle.dedicated.specs.Dedicated.{request_fault, id_fault, allocate_in, free_in, rename_in, placed, changed};

use dedicated::record::DedicatedBlock;
use refusals::Refusal;
use sub_allocator::answers::Placement;
use sub_allocator::request::Request;

// What the request is refused for, if anything.
#[tactic(auto, unfolding(dedicated::specs::Dedicated::request_fault, dedicated::specs::Dedicated::checked_block))]
fn request_fault(block: DedicatedBlock, request: Request) -> Result<(), Refusal>
    ensures { fault_of result ≡ request_fault block (request_of request) }
{
    block.checked()?;
    request.checked()?;
    if block.allocated != 0 {
        return Err(Refusal::Occupied);
    }
    if request.size != block.size {
        return Err(Refusal::OtherSize);
    }
    Ok(())
}

#[tactic(auto, unfolding(dedicated::specs::Dedicated::allocate_in))]
pub fn allocate(
    block: DedicatedBlock,
    request: Request,
) -> Result<(Placement, DedicatedBlock), Refusal>
    ensures { placed block result ≡ allocate_in block (request_of request) }
{
    request_fault(block, request)?;
    let placement = Placement { offset: 0, id: 1 };
    let after = DedicatedBlock {
        allocated: block.size,
        label: request.label,
        ..block
    };
    Ok((placement, after))
}

// What giving back and renaming by this id are refused for, if anything.
#[tactic(auto, unfolding(dedicated::specs::Dedicated::id_fault, dedicated::specs::Dedicated::checked_block))]
fn id_fault(block: DedicatedBlock, id: u64) -> Result<(), Refusal>
    ensures { fault_of result ≡ id_fault block id }
{
    block.checked()?;
    if id != 1 {
        return Err(Refusal::NotId1);
    }
    Ok(())
}

// Accepted when already empty too, and the label stays.
#[tactic(auto, unfolding(dedicated::specs::Dedicated::free_in))]
pub fn free(block: DedicatedBlock, id: u64) -> Result<DedicatedBlock, Refusal>
    ensures { changed block result ≡ free_in block id }
{
    id_fault(block, id)?;
    Ok(DedicatedBlock {
        allocated: 0,
        ..block
    })
}

// Accepted empty or not.
#[tactic(auto, unfolding(dedicated::specs::Dedicated::rename_in))]
pub fn rename_allocation(
    block: DedicatedBlock,
    id: u64,
    label: u64,
) -> Result<DedicatedBlock, Refusal>
    ensures { changed block result ≡ rename_in block id label }
{
    id_fault(block, id)?;
    Ok(DedicatedBlock { label, ..block })
}
