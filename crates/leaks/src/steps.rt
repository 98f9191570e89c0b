// A step of the walk from a place: what is handed out, and the place after it.
ghost use Rattle.std.specs.Prelude.{◌≡◌};
ghost use Rattle.leaks.specs.Leaks.{reply_leak, step_on};

use crate::leak::Leak;
use crate::live;
use refusals::Refusal;

// The place moves to the end of the chunk that is handed out, and stays where it is at the end and on a refusal.
#[tactic(auto, unfolding(crate::specs::Leaks::step_on))]
pub fn step_at(words: &[u64], place: &mut u64) -> Result<Option<Leak>, Refusal>
    ensures { (reply_leak result, place.new) ≡ step_on words.now place.old }
{
    let found = live::live_from(words, *place)?;
    if let Some(leak) = found {
        *place = leak.first_byte + leak.size;
    }
    Ok(found)
}
