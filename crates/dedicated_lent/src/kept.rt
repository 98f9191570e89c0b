// The same calls for a caller that keeps the record by value: a copy of it is lent, and comes back where the call is accepted.
ghost use Rattle.std.specs.Prelude.{◌≡◌};
ghost use Rattle.sub_allocator.specs.Requests.{request_of};
ghost use Rattle.dedicated.specs.Dedicated.{allocate_in, free_in, rename_in, placed, changed};

use dedicated::record::DedicatedBlock;
use refusals::Refusal;
use sub_allocator::answers::Placement;
use sub_allocator::request::Request;

// They promise what those by value do, and stand beside them since docs/STATEMENTS.md has them: a copy is lent to the lent calls.
pub fn allocate(
    block: DedicatedBlock,
    request: Request,
) -> Result<(Placement, DedicatedBlock), Refusal>
    ensures { placed block result ≡ allocate_in block (request_of request) }
{
    let mut lent = block;
    let placement = crate::allocate(&mut lent, request)?;
    Ok((placement, lent))
}

pub fn free(block: DedicatedBlock, id: u64) -> Result<DedicatedBlock, Refusal>
    ensures { changed block result ≡ free_in block id }
{
    let mut lent = block;
    crate::free(&mut lent, id)?;
    Ok(lent)
}

pub fn rename_allocation(
    block: DedicatedBlock,
    id: u64,
    label: u64,
) -> Result<DedicatedBlock, Refusal>
    ensures { changed block result ≡ rename_in block id label }
{
    let mut lent = block;
    crate::rename_allocation(&mut lent, id, label)?;
    Ok(lent)
}
