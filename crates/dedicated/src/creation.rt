// A dedicated block made anew.
ghost use Rattle.std.specs.Prelude.{◌≡◌};
ghost use Rattle.refusals.specs.Refusals.{reply};
ghost use Rattle.dedicated.specs.Dedicated.{new_block};

use crate::record::DedicatedBlock;
use refusals::Refusal;

#[tactic(auto, unfolding(crate::specs::Dedicated::new_block))]
pub fn new(size: u64) -> Result<DedicatedBlock, Refusal>
    ensures { reply result ≡ new_block size }
{
    if size == 0 {
        return Err(Refusal::BlockSize);
    }
    Ok(DedicatedBlock {
        size,
        allocated: 0,
        label: 0,
    })
}
