// A new block: a fresh table over lent words, whatever they were.
ghost use Rattle.std.specs.Prelude.{◌≡◌};
ghost use Rattle.refusals.specs.Refusals.{reply};
ghost use Rattle.opening.specs.Creation.{new_on};

use refusals::Refusal;
use table::layout;
use words::{fresh, ranges};

#[tactic(auto, unfolding(crate::specs::Creation::new_on))]
pub fn new(words: &mut [u64], size: u64) -> Result<(), Refusal>
    ensures { (reply result, words.new) ≡ new_on words.old size }
{
    if !layout::is_table(words) {
        return Err(Refusal::WordCount);
    }
    if !ranges::is_up_to(ranges::LARGEST_BLOCK, size) {
        return Err(Refusal::BlockSize);
    }
    fresh::write_fresh(words, size);
    Ok(())
}
