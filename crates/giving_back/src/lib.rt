// Giving back a live chunk by its id, and renaming it.
#![tactic(auto)]

ghost use Rattle.std.specs.Prelude.{◌≡◌};
ghost use Rattle.model.specs.Block.{Spot};
ghost use Rattle.model.specs.GivingBack.{freed};
ghost use Rattle.model.specs.Placing.{with_chunks};
ghost use Rattle.words.specs.Words.{encode, block_of};
ghost use Rattle.chunks.specs.Premises.{FreeIn, LiveIn};
ghost use Rattle.refusals.specs.Refusals.{reply};
ghost use Rattle.giving_back.specs.GivingBack.{found_on, free_on, rename_on, link_of, left_of, join_beside, FreeHere, LiveHere};

use chunks::{labels, taking};
use opening::look;
use pieces::joining;
use refusals::Refusal;
use search::live;
use table::layout;
use table::layout::Field;

// One of the two neighbours of a chunk.
#[derive(Clone, Copy)]
enum Side {
    Next,
    Previous,
}

impl Side {
    // The word that says in which slot this neighbour is.
    fn link(self) -> Field
        ensures { result ≡ link_of self }
    {
        match self {
            Side::Next => Field::Next,
            Side::Previous => Field::Previous,
        }
    }

    // Of slot k and of this neighbour of it in slot n, the one on the left.
    fn left(self, k: u64, n: u64) -> u64
        ensures { result ≡ left_of self k n }
    {
        match self {
            Side::Next => k,
            Side::Previous => n,
        }
    }
}

// The free chunk in slot k and the neighbour on this side become one, if that is free too.
fn join_beside(words: &mut [u64], k: u64, side: Side)
    requires { FreeHere words.old k }
    ensures { (z : Spot) → FreeIn words.old k z → words.new ≡ encode (join_beside side z (block_of words.old)) }
{
    // a link of 0 is none, as the table has it: an Option would be made and at once taken apart
    let n = layout::word(words, k, side.link());
    if n == 0 || !layout::is_free(words, n) {
        return;
    }
    joining::join(words, side.left(k, n));
}

// The live chunk in slot k becomes free, and one with its free neighbours.
fn give_back(words: &mut [u64], k: u64)
    requires { LiveHere words.old k }
    ensures { (z : Spot) → LiveIn words.old k z → words.new ≡ encode (with_chunks (block_of words.old) (freed z)) }
{
    taking::set_free(words, k);
    join_beside(words, k, Side::Next);
    join_beside(words, k, Side::Previous);
}

// The slot of the live chunk with this id.
#[tactic(auto, using(words::proofs::Written::sound_is_table, crate::proofs::Answered::not_looked, crate::proofs::Answered::found_told))]
fn find(words: &[u64], id: u64) -> Result<u64, Refusal>
    ensures { reply result ≡ found_on words.now id }
{
    let table = look::sound_table(words)?;
    live::find_live(table, id).ok_or(Refusal::UnknownId)
}

pub fn free(words: &mut [u64], id: u64) -> Result<(), Refusal>
    ensures { (reply result, words.new) ≡ free_on words.old id }
{
    let k = find(words, id)?;
    give_back(words, k);
    Ok(())
}

pub fn rename_allocation(words: &mut [u64], id: u64, label: u64) -> Result<(), Refusal>
    ensures { (reply result, words.new) ≡ rename_on words.old id label }
{
    let k = find(words, id)?;
    labels::relabel(words, k, label);
    Ok(())
}
