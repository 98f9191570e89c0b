// Ranges of numbers from 1.
ghost use Rattle.std.specs.Prelude.{◌≡◌};
ghost use Rattle.words.specs.Checks.{up_to};

// The bytes of the largest block: 2^40.
pub const LARGEST_BLOCK: u64 = 1024 * 1024 * 1024 * 1024;

// Whether x is from 1 to top: k where it is a slot's number, an id where it was handed out, a block's size.
#[tactic(auto, unfolding(crate::specs::Checks::up_to, laws::specs::Every::every))]
pub fn is_up_to(top: u64, x: u64) -> bool
    ensures { result ≡ up_to top x }
{
    (1..=top).contains(&x)
}
