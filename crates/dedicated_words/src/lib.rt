// The record of a dedicated block at the boundary: what a call leaves of it is written out.
#![tactic(auto)]

ghost use Rattle.std.specs.Prelude.{◌≡◌};
ghost use Rattle.refusals.specs.Refusals.{reply};
ghost use Rattle.dedicated_words.specs.RecordOut.{new_out};

use dedicated::record::DedicatedBlock;
use refusals::Refusal;

// A refusal keeps the words that are there.
pub fn give_record(answer: Result<DedicatedBlock, Refusal>, words: &mut [u64; 3]) -> u64
    ensures { (result, words.new) ≡ new_out (reply answer) words.old }
{
    let Ok(block) = answer else {
        return refusals::number(&answer);
    };
    *words = block.into();
    0
}
