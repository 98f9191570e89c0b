// The record of a dedicated block, and the one entry of its report.
ghost use Rattle.std.specs.Prelude.{◌≡◌};
ghost use Rattle.refusals.specs.Refusals.{reply};
ghost use Rattle.dedicated.specs.Dedicated.{is_sound, checked_block};

use refusals::Refusal;

#[derive(Clone, Copy, Debug, PartialEq, Eq)]
pub struct DedicatedBlock {
    pub size: u64,
    pub allocated: u64,
    pub label: u64,
}

#[derive(Clone, Copy, Debug, PartialEq, Eq)]
pub struct AllocationReport {
    pub first_byte: u64,
    pub size: u64,
    pub label: u64,
}

impl DedicatedBlock {
    // At least one byte, and none or all of them allocated.
    #[tactic(auto, unfolding(crate::specs::Dedicated::is_sound))]
    pub fn is_sound(self) -> bool
        ensures { result ≡ is_sound self }
    {
        self.size != 0 && (self.allocated == 0 || self.allocated == self.size)
    }

    // The record itself, if it is sound.
    #[tactic(auto, unfolding(crate::specs::Dedicated::checked_block))]
    pub fn checked(self) -> Result<DedicatedBlock, Refusal>
        ensures { reply result ≡ checked_block self }
    {
        if !self.is_sound() {
            return Err(Refusal::Unsound);
        }
        Ok(self)
    }
}
