// The size of one block: adjusted, tested, and grown from a minimum to a maximum.
#![tactic(auto)]

ghost use Rattle.std.specs.Prelude.{true, ◌≡◌, is_some, IfSome, max};
ghost use Rattle.size_ranges.specs.SizeRanges.{adjust, is_block_size, is_range, grown};

pub const MB: u64 = 1024 * 1024;

#[tactic(auto, unfolding(crate::specs::SizeRanges::adjust, laws::specs::Rounding::align_up, laws::specs::Rounding::align_down))]
pub fn adjust_memblock_size(size: u64) -> u64
    ensures { result ≡ adjust size }
{
    let size = size.clamp(4 * MB, 256 * MB);
    if size % (4 * MB) == 0 {
        return size;
    }
    let val = size / (4 * MB) + 1;
    val * 4 * MB
}

#[tactic(auto, unfolding(crate::specs::SizeRanges::is_block_size))]
fn is_block_size(size: u64) -> bool
    ensures { result ≡ is_block_size size }
{
    4 * MB <= size && size <= 256 * MB && size % (4 * MB) == 0
}

// The size that blocks begin with, and the most that they grow to: both are block sizes, in order.
#[derive(Clone, Copy)]
pub struct SizeRange {
    pub least: u64,
    pub most: u64,
    pub ghost range: { is_range least most ≡ true },
}

impl SizeRange {
    // None where the two numbers are no range.
    #[tactic(auto, unfolding(crate::specs::SizeRanges::is_range))]
    pub fn new(least: u64, most: u64) -> Option<SizeRange>
        ensures range { is_some result ≡ is_range least most }
        ensures same { IfSome result (λ r. (r.least ≡ least) × (r.most ≡ most)) }
    {
        if is_block_size(least) && is_block_size(most) && least <= most {
            Some(SizeRange { least, most })
        } else {
            None
        }
    }

    // What the most becomes where a size is asked for: never below the least.
    pub fn most_for(self, size: u64) -> u64
        ensures { result ≡ max (adjust size) self.least }
    {
        adjust_memblock_size(size).max(self.least)
    }

    // A block's size is at most 2 ^ 28, so that seven doublings lose no bit.
    pub fn grow(self, count: u64) -> u64
        ensures { result ≡ grown self.least self.most count }
    {
        (self.least << count.min(7)).min(self.most)
    }
}
