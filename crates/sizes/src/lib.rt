// The sizes of memory blocks that an allocator opens, by value.
#![tactic(auto)]

ghost use Rattle.std.specs.Prelude.{◌≡◌, cond, IfOk};
ghost use Rattle.refusals.specs.Refusals.{reply, fault_of};
ghost use Rattle.sizes.specs.Sizes.{is_producible, new_sizes, default_sizes, set_max_device, set_max_host, memblock_size, numbered, words};

use refusals::Refusal;
use size_ranges::{MB, SizeRange, adjust_memblock_size};

// The fields are the Rust's, and any caller may make the four numbers up.
#[derive(Clone, Copy, Debug, PartialEq, Eq)]
pub struct AllocationSizes {
    pub min_device_memblock_size: u64,
    pub max_device_memblock_size: u64,
    pub min_host_memblock_size: u64,
    pub max_host_memblock_size: u64,
}

// The same numbers where the calls here can reach them: a range for device blocks, and one for host blocks.
#[derive(Clone, Copy)]
struct Ranges {
    device: SizeRange,
    host: SizeRange,
}

impl Default for AllocationSizes {
    ghost is_default = { λ sizes. sizes ≡ default_sizes };

    fn default() -> AllocationSizes {
        AllocationSizes {
            min_device_memblock_size: 256 * MB,
            max_device_memblock_size: 256 * MB,
            min_host_memblock_size: 64 * MB,
            max_host_memblock_size: 64 * MB,
        }
    }
}

// Four numbers stand for sizes, in the order of the fields, and back.
impl From<[u64; 4]> for AllocationSizes {
    ghost from_gives = { λ numbers sizes. sizes ≡ numbered numbers };

    fn from(numbers: [u64; 4]) -> AllocationSizes {
        let [min_device, max_device, min_host, max_host] = numbers;
        AllocationSizes {
            min_device_memblock_size: min_device,
            max_device_memblock_size: max_device,
            min_host_memblock_size: min_host,
            max_host_memblock_size: max_host,
        }
    }
}

impl From<AllocationSizes> for [u64; 4] {
    ghost from_gives = { λ sizes numbers. numbers ≡ words sizes };

    fn from(sizes: AllocationSizes) -> [u64; 4] {
        [
            sizes.min_device_memblock_size,
            sizes.max_device_memblock_size,
            sizes.min_host_memblock_size,
            sizes.max_host_memblock_size,
        ]
    }
}

impl AllocationSizes {
    #[tactic(auto, unfolding(crate::specs::Sizes::new_sizes))]
    pub fn new(device_memblock_size: u64, host_memblock_size: u64) -> Self
        ensures { result ≡ new_sizes device_memblock_size host_memblock_size }
    {
        let device = adjust_memblock_size(device_memblock_size);
        let host = adjust_memblock_size(host_memblock_size);
        AllocationSizes {
            min_device_memblock_size: device,
            max_device_memblock_size: device,
            min_host_memblock_size: host,
            max_host_memblock_size: host,
        }
    }

    #[tactic(auto, unfolding(crate::specs::Sizes::is_producible))]
    fn checked(self) -> Result<Ranges, Refusal>
        ensures fault { fault_of result ≡ cond (is_producible self) 0 14 }
        ensures device { IfOk result (λ r. (r.device.least ≡ self.min_device_memblock_size) × (r.device.most ≡ self.max_device_memblock_size)) }
        ensures host { IfOk result (λ r. (r.host.least ≡ self.min_host_memblock_size) × (r.host.most ≡ self.max_host_memblock_size)) }
    {
        let device = SizeRange::new(
            self.min_device_memblock_size,
            self.max_device_memblock_size,
        ).ok_or(Refusal::Sizes)?;
        let host = SizeRange::new(self.min_host_memblock_size, self.max_host_memblock_size).ok_or(
            Refusal::Sizes,
        )?;
        Ok(Ranges { device, host })
    }

    // Both setters are the Rust's by name, and what they share is `checked` and `most_for`.
    #[tactic(auto, unfolding(crate::specs::Sizes::if_producible, crate::specs::Sizes::set_max_device, crate::specs::Sizes::with_max_device))]
    pub fn with_max_device_memblock_size(mut self, size: u64) -> Result<Self, Refusal>
        ensures { reply result ≡ set_max_device self size }
    {
        self.max_device_memblock_size = self.checked()?.device.most_for(size);
        Ok(self)
    }

    #[tactic(auto, unfolding(crate::specs::Sizes::if_producible, crate::specs::Sizes::set_max_host, crate::specs::Sizes::with_max_host))]
    pub fn with_max_host_memblock_size(mut self, size: u64) -> Result<Self, Refusal>
        ensures { reply result ≡ set_max_host self size }
    {
        self.max_host_memblock_size = self.checked()?.host.most_for(size);
        Ok(self)
    }

    #[tactic(auto, unfolding(crate::specs::Sizes::if_producible, crate::specs::Sizes::memblock_size))]
    pub fn get_memblock_size(self, is_host: bool, count: u64) -> Result<u64, Refusal>
        ensures { reply result ≡ memblock_size self is_host count }
    {
        let ranges = self.checked()?;
        let range = if is_host { ranges.host } else { ranges.device };
        Ok(range.grow(count))
    }
}
