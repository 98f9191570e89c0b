// A block's calls at the boundary: its table as a word slice, the value asked for out, 0 on a refusal.
#![tactic(auto)]

ghost use Rattle.std.specs.Prelude.{◌≡◌};
ghost use Rattle.opening.specs.Creation.{new_on};
ghost use Rattle.giving_back.specs.GivingBack.{free_on, rename_on};
ghost use Rattle.placing.specs.Placing.{allocate_on};
ghost use Rattle.opening.specs.Questions.{allocated_on, is_empty_on};
ghost use Rattle.outs.specs.Outs.{words_out, request, placed_out, value_out, flag_out};

use giving_back;
use opening::{creation, questions};
use outs;
use placing;
use refusals;
use sub_allocator::request::Request;

#[unsafe(no_mangle)]
pub extern "C" fn lunkaseyo_block_new(words: &mut [u64], size: u64) -> u64
    ensures { (result, words.new) ≡ words_out (new_on words.old size) }
{
    refusals::number(&creation::new(words, size))
}

// The C interface passes a request as five numbers.
#[unsafe(no_mangle)]
pub extern "C" fn lunkaseyo_block_allocate(
    words: &mut [u64],
    size: u64,
    alignment: u64,
    kind: u64,
    granularity: u64,
    label: u64,
    offset: &mut u64,
    id: &mut u64,
) -> u64
    ensures { (result, offset.new, id.new, words.new) ≡ placed_out (allocate_on words.old (request size alignment kind granularity label)) }
{
    let request = Request {
        size,
        alignment,
        kind,
        granularity,
        label,
    };
    outs::give_placement(placing::allocate(words, request), offset, id)
}

#[unsafe(no_mangle)]
pub extern "C" fn lunkaseyo_block_free(words: &mut [u64], id: u64) -> u64
    ensures { (result, words.new) ≡ words_out (free_on words.old id) }
{
    refusals::number(&giving_back::free(words, id))
}

#[unsafe(no_mangle)]
pub extern "C" fn lunkaseyo_block_rename_allocation(words: &mut [u64], id: u64, label: u64) -> u64
    ensures { (result, words.new) ≡ words_out (rename_on words.old id label) }
{
    refusals::number(&giving_back::rename_allocation(words, id, label))
}

#[unsafe(no_mangle)]
pub extern "C" fn lunkaseyo_block_allocated(words: &[u64], allocated: &mut u64) -> u64
    ensures { (result, allocated.new) ≡ value_out (allocated_on words.now) }
{
    outs::give_value(questions::allocated(words), allocated)
}

#[unsafe(no_mangle)]
pub extern "C" fn lunkaseyo_block_is_empty(words: &[u64], is_empty: &mut u64) -> u64
    ensures { (result, is_empty.new) ≡ flag_out (is_empty_on words.now) }
{
    outs::give_flag(questions::is_empty(words), is_empty)
}
