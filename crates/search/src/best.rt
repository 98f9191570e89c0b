// The chunk that is chosen for a request: the smallest that holds it, the lowest address among equals.
ghost use Rattle.std.specs.Prelude.{◌≡◌, ◌+◌, ◌^◌, ◌<◌};
ghost use Rattle.sub_allocator.specs.Requests.{request_of};
ghost use Rattle.search.specs.Best.{best_slot, better_at};
ghost use Rattle.search.specs.Slots.{some_slot};

use crate::held::Held;
use crate::{fit, held};
use sub_allocator::request::WellFormed;
use table::layout::Field;
use words::sound::SoundTable;

// Whether the chunk holds the request and is smaller than the best so far, which has so many bytes to spare.
fn is_better(chunk: Held, spare: u64, request: WellFormed) -> bool
    requires { spare + request.request.size < 2 ^ 64 }
    ensures { result ≡ better_at chunk.entry.table.words.now chunk.entry.slot (spare + request.request.size) (request_of request.request) }
{
    // one test for most chunks: too small a one wraps round to more than any has to spare
    let over = chunk.word(Field::Size).wrapping_sub(request.request.size);
    if spare <= over {
        return false;
    }
    if !chunk.is_free() {
        return false;
    }
    fit::fits(chunk, request)
}

// The slot of the chunk that is chosen, none where no free chunk holds the request.
pub fn best(table: SoundTable, request: WellFormed) -> Option<u64>
    ensures { result ≡ some_slot (best_slot table.entry.words.now (request_of request.request)) }
{
    let mut best = None;
    let mut spare = u64::MAX - request.request.size;
    let mut next = held::first(table);
    // by rising address, so that of equal chunks the first stays
    while let Some(chunk) = next {
        next = chunk.next();
        if is_better(chunk, spare, request) {
            best = Some(chunk.slot);
            spare = chunk.word(Field::Size) - request.request.size;
        }
    }
    best
}
