// Placing: the offset and the id that a request is given, and the table after it.
#![tactic(auto)]

ghost use Rattle.std.specs.Prelude.{◌≡◌};
ghost use Rattle.refusals.specs.Refusals.{reply};
ghost use Rattle.sub_allocator.specs.Requests.{request_of};
ghost use Rattle.placing.specs.Placing.{mark_of, placed_on, allocate_on, Chosen, Measured};

use chunks::taking;
use chunks::taking::Mark;
use opening::look;
use pieces::splitting;
use pieces::splitting::Piece;
use refusals::Refusal;
use search::{best, empty, fit};
use sub_allocator::answers::Placement;
use sub_allocator::request::{Request, WellFormed};
use table::layout;
use table::layout::{Field, HeadField};
use words::sound::SoundTable;

// The next id where none is left: ids are 64-bit words, and the last one is never handed out.
const NO_ID: u64 = u64::MAX;

// What the chunk is marked with that a request is given.
fn mark_of(request: WellFormed) -> Mark
    ensures { result ≡ mark_of (request_of request.request) }
{
    let Request { kind, label, .. } = request.request;
    Mark { kind, label }
}

// The first n bytes of the chunk in slot k, which is larger; the request's are the last of them, from the offset on.
fn place_piece(
    words: &mut [u64],
    k: u64,
    offset: u64,
    n: u64,
    request: WellFormed,
) -> Result<Placement, Refusal>
    requires { Measured words.old k offset n (request_of request.request) }
    ensures { (reply result, words.new) ≡ placed_on words.old (request_of request.request) }
{
    let id = layout::head(words, HeadField::NextId);
    if id == NO_ID {
        return Err(Refusal::NoId);
    }
    let slot = empty::empty_slot(SoundTable { words }).ok_or(Refusal::NoSlot)?;
    let piece = Piece {
        slot,
        size: n,
        mark: mark_of(request),
    };
    splitting::split_off(words, k, piece);
    Ok(Placement { offset, id })
}

// The request goes into the chunk in slot k, which is the best that holds it.
fn place_in(words: &mut [u64], k: u64, request: WellFormed) -> Result<Placement, Refusal>
    requires { Chosen words.old k (request_of request.request) }
    ensures { (reply result, words.new) ≡ placed_on words.old (request_of request.request) }
{
    let offset = fit::offset_in(SoundTable { words }, k, request);
    let n = offset - layout::word(words, k, Field::FirstByte) + request.request.size;
    if n < layout::word(words, k, Field::Size) {
        return place_piece(words, k, offset, n, request);
    }
    let id = layout::word(words, k, Field::Id);
    taking::take_whole(words, k, mark_of(request));
    Ok(Placement { offset, id })
}

pub fn allocate(words: &mut [u64], request: Request) -> Result<Placement, Refusal>
    ensures { (reply result, words.new) ≡ allocate_on words.old (request_of request) }
{
    let table = look::sound_table(words)?;
    let request = request.checked()?;
    let k = best::best(table, request).ok_or(Refusal::NoRoom)?;
    place_in(words, k, request)
}
