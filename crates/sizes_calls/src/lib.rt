// Block sizes at the boundary: four numbers in, an array of four out, zeros on a refusal.
#![tactic(auto)]

ghost use Rattle.std.specs.Prelude.{◌≡◌};
ghost use Rattle.refusals.specs.Refusals.{reply};
ghost use Rattle.sizes.specs.Sizes.{sizes_of, words, new_sizes, default_sizes, set_max_device, set_max_host, memblock_size};
ghost use Rattle.outs.specs.Outs.{value_out};
ghost use Rattle.sizes_calls.specs.SizesCalls.{sizes_out};
ghost use Rattle.sizes_calls.specs.SizesCalls;

use refusals::Refusal;
use sizes::AllocationSizes;

// What a setter answered, written out: its number, and the four words behind `sizes`.
fn give_sizes(answer: Result<AllocationSizes, Refusal>, sizes: &mut [u64; 4]) -> u64
    ensures { (result, sizes.new) ≡ sizes_out (reply answer) }
{
    *sizes = answer.map_or([0; 4], <[u64; 4]>::from);
    refusals::number(&answer)
}

#[unsafe(no_mangle)]
pub extern "C" fn lunkaseyo_sizes_new(
    device_memblock_size: u64,
    host_memblock_size: u64,
    sizes: &mut [u64; 4],
)
    ensures { sizes.new ≡ words (new_sizes device_memblock_size host_memblock_size) }
{
    *sizes = AllocationSizes::new(device_memblock_size, host_memblock_size).into();
}

#[unsafe(no_mangle)]
pub extern "C" fn lunkaseyo_sizes_default(sizes: &mut [u64; 4])
    ensures { sizes.new ≡ words default_sizes }
{
    *sizes = AllocationSizes::default().into();
}

#[unsafe(no_mangle)]
pub extern "C" fn lunkaseyo_sizes_with_max_device_memblock_size(
    min_device: u64,
    max_device: u64,
    min_host: u64,
    max_host: u64,
    size: u64,
    sizes: &mut [u64; 4],
) -> u64
    ensures { (result, sizes.new) ≡ sizes_out (set_max_device (sizes_of min_device max_device min_host max_host) size) }
{
    let given = AllocationSizes::from([min_device, max_device, min_host, max_host]);
    give_sizes(given.with_max_device_memblock_size(size), sizes)
}

#[unsafe(no_mangle)]
pub extern "C" fn lunkaseyo_sizes_with_max_host_memblock_size(
    min_device: u64,
    max_device: u64,
    min_host: u64,
    max_host: u64,
    size: u64,
    sizes: &mut [u64; 4],
) -> u64
    ensures { (result, sizes.new) ≡ sizes_out (set_max_host (sizes_of min_device max_device min_host max_host) size) }
{
    let given = AllocationSizes::from([min_device, max_device, min_host, max_host]);
    give_sizes(given.with_max_host_memblock_size(size), sizes)
}

#[unsafe(no_mangle)]
pub extern "C" fn lunkaseyo_sizes_get_memblock_size(
    min_device: u64,
    max_device: u64,
    min_host: u64,
    max_host: u64,
    is_host: u64,
    count: u64,
    size: &mut u64,
) -> u64
    ensures { (result, size.new) ≡ value_out (memblock_size (sizes_of min_device max_device min_host max_host) (SizesCalls.is_host is_host) count) }
{
    let given = AllocationSizes::from([min_device, max_device, min_host, max_host]);
    outs::give_value(given.get_memblock_size(is_host != 0, count), size)
}
