// What a block is asked without changing it: the bytes allocated, and whether there are any.
ghost use Rattle.std.specs.Prelude.{◌≡◌};
ghost use Rattle.refusals.specs.Refusals.{reply};
ghost use Rattle.opening.specs.Questions.{allocated_on, is_empty_on};

use crate::look;
use refusals::Refusal;
use table::layout;
use table::layout::HeadField;

#[tactic(auto, using(words::proofs::Written::sound_is_table, crate::proofs::Asked::not_looked, crate::proofs::Asked::the_total, crate::proofs::Asked::has_head))]
pub fn allocated(words: &[u64]) -> Result<u64, Refusal>
    ensures { reply result ≡ allocated_on words.now }
{
    let table = look::sound_table(words)?;
    Ok(layout::head(table.words, HeadField::Allocated))
}

#[tactic(auto, using(crate::proofs::Asked::empty_refused, crate::proofs::Asked::empty_told))]
pub fn is_empty(words: &[u64]) -> Result<bool, Refusal>
    ensures { reply result ≡ is_empty_on words.now }
{
    Ok(allocated(words)? == 0)
}
