// Whether the page functions answer as a recorded line says. A line with a range of no bytes, or outside their domain, agrees with
// nothing.
#![tactic(auto)]

fn align_down_agrees(val: u64, alignment: u64, answer: u64) -> bool {
    pages::is_power_of_two(alignment) && pages::align_down(val, alignment) == answer
}

#[tactic(auto, using(pages::specs::Pages::power_pos))]
fn align_up_agrees(val: u64, alignment: u64, answer: u64) -> bool {
    pages::is_power_of_two(alignment)
        && val <= u64::MAX - (alignment - 1)
        && pages::align_up(val, alignment) == answer
}

fn same_page_agrees(
    offset_a: u64,
    size_a: u64,
    offset_b: u64,
    page_size: u64,
    answer: u64,
) -> bool {
    pages::is_power_of_two(page_size)
        && size_a != 0
        && offset_a <= u64::MAX - size_a
        && u64::from(pages::is_on_same_page(offset_a, size_a, offset_b, page_size)) == answer
}

// The first field says which function; the last is its answer.
pub fn agrees(fields: &[u64]) -> bool {
    match *fields {
        [1, val, alignment, answer] => align_down_agrees(val, alignment, answer),
        [2, val, alignment, answer] => align_up_agrees(val, alignment, answer),
        [3, offset_a, size_a, offset_b, page_size, answer] => {
            same_page_agrees(offset_a, size_a, offset_b, page_size, answer)
        }
        [4, type0, type1, answer] => {
            u64::from(pages::has_granularity_conflict(type0, type1)) == answer
        }
        _ => false,
    }
}
