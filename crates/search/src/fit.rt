// Where a request stands in a free chunk, and whether it fits there.
ghost use Rattle.std.specs.Prelude.{◌≡◌, ◌+◌, ◌^◌, ◌<◌, ◌≤◌};
ghost use Rattle.model.specs.Placing.{asked, offset_at, fits_at};
ghost use Rattle.pages.specs.Vulkan.{may_stand};
ghost use Rattle.table.specs.Layout.{size_at, first_byte_at};
ghost use Rattle.sub_allocator.specs.Requests.{request_of};
ghost use Rattle.search.specs.Held.{HeldIn};
ghost use Rattle.search.specs.Fit.{before_at, after_at};

use crate::held::Held;
use pages;
use sub_allocator::request::WellFormed;
use table::layout::Field;
use words::sound::SoundTable;

// Whether the request, from the offset on, keeps the page rule with the chunk before. Kinds are looked at first.
fn clears_before(chunk: Held, offset: u64, request: WellFormed) -> bool
    ensures { result ≡ may_stand request.request.granularity (before_at chunk.entry.table.words.now chunk.entry.slot) (asked (request_of request.request) offset) }
{
    let Some(before) = chunk.previous() else {
        return true;
    };
    let kind = before.word(Field::Kind);
    if !pages::has_granularity_conflict(kind, request.request.kind) {
        return true;
    }
    let first = before.word(Field::FirstByte);
    let size = before.word(Field::Size);
    !pages::is_on_same_page(first, size, offset, request.request.granularity)
}

// The same with the chunk after, by the last requested byte. One function for both would be handed both ranges and kinds, six numbers.
fn clears_after(chunk: Held, offset: u64, request: WellFormed) -> bool
    requires { offset + request.request.size < 2 ^ 64 }
    ensures { result ≡ may_stand request.request.granularity (asked (request_of request.request) offset) (after_at chunk.entry.table.words.now chunk.entry.slot) }
{
    let Some(after) = chunk.next() else {
        return true;
    };
    let kind = after.word(Field::Kind);
    if !pages::has_granularity_conflict(request.request.kind, kind) {
        return true;
    }
    let first = after.word(Field::FirstByte);
    !pages::is_on_same_page(
        offset,
        request.request.size,
        first,
        request.request.granularity,
    )
}

// The offset of the request in a free chunk.
fn offset_of(chunk: Held, request: WellFormed) -> u64
    ensures { result ≡ offset_at (request_of request.request) (first_byte_at chunk.entry.table.words.now chunk.entry.slot) (before_at chunk.entry.table.words.now chunk.entry.slot) }
{
    let first = chunk.word(Field::FirstByte);
    let offset = pages::align_up(first, request.request.alignment);
    if clears_before(chunk, offset, request) {
        return offset;
    }
    pages::align_up(offset, request.request.granularity)
}

// The offset of the request in the free chunk in slot k.
pub fn offset_in(table: SoundTable, k: u64, request: WellFormed) -> u64
    requires { HeldIn table.words.now k }
    ensures { result ≡ offset_at (request_of request.request) (first_byte_at table.entry.words.now k) (before_at table.entry.words.now k) }
{
    offset_of(Held { table, slot: k }, request)
}

// Whether the request fits a free chunk. That it is no larger is known, so that no sum is too large.
pub(crate) fn fits(chunk: Held, request: WellFormed) -> bool
    requires { request.request.size ≤ size_at chunk.table.words.now chunk.slot }
    ensures { result ≡ fits_at (request_of request.request) (first_byte_at chunk.entry.table.words.now chunk.entry.slot) (size_at chunk.entry.table.words.now chunk.entry.slot) (before_at chunk.entry.table.words.now chunk.entry.slot) (after_at chunk.entry.table.words.now chunk.entry.slot) }
{
    let first = chunk.word(Field::FirstByte);
    let offset = offset_of(chunk, request);
    let padding = offset - first;
    if chunk.word(Field::Size) < padding + request.request.size {
        return false;
    }
    clears_after(chunk, offset, request)
}
