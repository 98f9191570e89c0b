// The calls that write a dedicated block's record, on one that the caller lends: thin, over those by value.
#![tactic(auto)]

pub mod kept;

ghost use Rattle.std.specs.Prelude.{◌≡◌, OnErr};
ghost use Rattle.refusals.specs.Refusals.{reply};
ghost use Rattle.sub_allocator.specs.Requests.{request_of};
ghost use Rattle.dedicated.specs.Dedicated.{allocate_in, free_in, rename_in};

use dedicated::record::DedicatedBlock;
use dedicated_by_value;
use refusals::Refusal;
use sub_allocator::answers::Placement;
use sub_allocator::request::Request;

// That there are both forms, these and those by value, is a rule of the project.
pub fn allocate(block: &mut DedicatedBlock, request: Request) -> Result<Placement, Refusal>
    ensures outcome { (reply result, block.new) ≡ allocate_in block.old (request_of request) }
    ensures err { OnErr result (block.new ≡ block.old) }
{
    let (placement, after) = dedicated_by_value::allocate(*block, request)?;
    *block = after;
    Ok(placement)
}

pub fn free(block: &mut DedicatedBlock, id: u64) -> Result<(), Refusal>
    ensures outcome { (reply result, block.new) ≡ free_in block.old id }
    ensures err { OnErr result (block.new ≡ block.old) }
{
    *block = dedicated_by_value::free(*block, id)?;
    Ok(())
}

pub fn rename_allocation(block: &mut DedicatedBlock, id: u64, label: u64) -> Result<(), Refusal>
    ensures outcome { (reply result, block.new) ≡ rename_in block.old id label }
    ensures err { OnErr result (block.new ≡ block.old) }
{
    *block = dedicated_by_value::rename_allocation(*block, id, label)?;
    Ok(())
}
