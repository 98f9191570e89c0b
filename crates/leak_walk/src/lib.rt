// The walk: it keeps the lent table and its own place, and hands out one live chunk at a time.
#![tactic(auto)]

ghost use Rattle.std.specs.Prelude.{◌≡◌};
ghost use Rattle.refusals.specs.Refusals.{reply};
ghost use Rattle.leaks.specs.Leaks.{step_on};
ghost use Rattle.leak_walk.specs.Walks.{seen, start_of, step_of, begun, begin_of};

use leaks::leak::Leak;
use leaks::steps;
use opening::look;
use refusals::Refusal;

// place: an address, from which on nothing is handed out yet; fault: what is kept of the start, by default what the table was refused for.
#[derive(Drop)]
pub struct Walk<'a, F = Option<Refusal>> {
    pub words: &'a [u64],
    pub place: u64,
    pub fault: F,
}

pub fn start<'a>(words: &'a [u64]) -> Walk<'a>
    ensures { seen result ≡ start_of words.entry }
{
    Walk {
        words,
        place: 0,
        fault: look::sound_table(words).err(),
    }
}

// On a walk with any fault, a number or nothing too: no step reads it.
pub fn step<'s, 'a, F>(walk: &'s mut Walk<'a, F>) -> Result<Option<Leak>, Refusal>
    ensures { (reply result, walk.new) ≡ step_of walk.old }
{
    steps::step_at(walk.words, &mut walk.place)
}

// A step for a caller that keeps the place itself.
pub fn step_from(words: &[u64], place: &mut u64) -> Result<Option<Leak>, Refusal>
    ensures { (reply result, place.new) ≡ step_on words.now place.old }
{
    let mut walk = Walk {
        words,
        place: *place,
        fault: (),
    };
    let leak = step(&mut walk);
    *place = walk.place;
    leak
}

// What a walk begins with: what its start is refused for, and its first step.
#[derive(Drop)]
pub struct Begun {
    pub fault: Option<Refusal>,
    pub leak: Result<Option<Leak>, Refusal>,
    pub place: u64,
}

// A start and a step for such a caller.
pub fn begin(words: &[u64]) -> Begun
    ensures { begun result ≡ begin_of words.entry }
{
    let mut walk = start(words);
    let leak = step(&mut walk);
    Begun {
        fault: walk.fault,
        leak,
        place: walk.place,
    }
}
