// What a dedicated block is asked: it stays as it is.
ghost use Rattle.std.specs.Prelude.{◌≡◌};
ghost use Rattle.refusals.specs.Refusals.{reply};
ghost use Rattle.dedicated.specs.Dedicated.{allocated_in, is_empty_in, report_of};

use crate::record::{AllocationReport, DedicatedBlock};
use refusals::Refusal;

#[tactic(auto, unfolding(crate::specs::Dedicated::allocated_in, crate::specs::Dedicated::checked_block))]
pub fn allocated(block: DedicatedBlock) -> Result<u64, Refusal>
    ensures { reply result ≡ allocated_in block }
{
    Ok(block.checked()?.allocated)
}

#[tactic(auto, unfolding(crate::specs::Dedicated::is_empty_in, crate::specs::Dedicated::checked_block))]
pub fn is_empty(block: DedicatedBlock) -> Result<bool, Refusal>
    ensures { reply result ≡ is_empty_in block }
{
    Ok(block.checked()?.allocated == 0)
}

// One entry, whether the block is occupied or not.
#[tactic(auto, unfolding(crate::specs::Dedicated::report_of, crate::specs::Dedicated::checked_block))]
pub fn report_allocations(block: DedicatedBlock) -> Result<AllocationReport, Refusal>
    ensures { reply result ≡ report_of block }
{
    let DedicatedBlock { size, label, .. } = block.checked()?;
    Ok(AllocationReport {
        first_byte: 0,
        size,
        label,
    })
}
