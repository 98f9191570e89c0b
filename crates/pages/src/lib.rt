// Aligning and page tests of a block, by masks as in the Rust: nothing divides.
#![tactic(auto)]

ghost use Rattle.std.specs.Prelude.{◌≡◌, true, ◌+◌, ◌-◌, ◌^◌, ◌<◌};
ghost use Rattle.laws.specs.Rounding.{align_down, align_up};
ghost use Rattle.pages.specs.Pages.{is_power_of_two, is_on_same_page, has_granularity_conflict};

// The test that a public entry makes of an alignment or a granularity, by `count_ones` as the paper has it.
#[tactic(auto, unfolding(crate::specs::Pages::is_power_of_two))]
pub fn is_power_of_two(x: u64) -> bool
    ensures { result ≡ is_power_of_two x }
{
    u64::count_ones(x) == 1
}

pub fn align_down(val: u64, alignment: u64) -> u64
    requires { is_power_of_two alignment ≡ true }
    ensures { result ≡ align_down val alignment }
{
    val & !(alignment - 1)
}

pub fn align_up(val: u64, alignment: u64) -> u64
    requires alignment_value { is_power_of_two alignment ≡ true }
    requires alignment_bound { val + (alignment - 1) < 2 ^ 64 }
    ensures { result ≡ align_up val alignment }
{
    align_down(val + (alignment - 1), alignment)
}

// Whether the last byte of a range and a later byte lie on one page.
#[tactic(auto, unfolding(crate::specs::Pages::is_on_same_page))]
pub fn is_on_same_page(offset_a: u64, size_a: u64, offset_b: u64, page_size: u64) -> bool
    requires page_size_value { is_power_of_two page_size ≡ true }
    requires size_a_nonzero { (0 < offset_a + size_a) × (offset_a + size_a < 2 ^ 64) }
    ensures { result ≡ is_on_same_page offset_a size_a offset_b page_size }
{
    let end_a = offset_a + size_a - 1;
    align_down(end_a, page_size) == align_down(offset_b, page_size)
}

// Whether two kinds of chunk (0 free, 1 linear, 2 non-linear) must keep to pages of their own.
// The kinds are numbers, and no enum: the definition says what any two numbers get, and a recorded run may ask for any.
#[tactic(auto, unfolding(crate::specs::Pages::has_granularity_conflict))]
pub fn has_granularity_conflict(type0: u64, type1: u64) -> bool
    ensures { result ≡ has_granularity_conflict type0 type1 }
{
    if type0 == 0 || type1 == 0 {
        return false;
    }
    type0 != type1
}
