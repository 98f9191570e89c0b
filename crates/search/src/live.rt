// The slot of the live chunk with an id.
ghost use Rattle.std.specs.Prelude.{◌≡◌};
ghost use Rattle.search.specs.Live.{live_slot};
ghost use Rattle.search.specs.Slots.{some_slot};

use crate::scan;
use table::layout;
use words::sound::SoundTable;

// None where only a free chunk has the id, or no chunk.
pub fn find_live(table: SoundTable, id: u64) -> Option<u64>
    ensures { result ≡ some_slot (live_slot table.entry.words.now id) }
{
    let k = scan::slot_with(table, id)?;
    // an empty slot, which is the one with id 0, has kind 0 as a free chunk has
    if layout::is_free(table.words, k) {
        return None;
    }
    Some(k)
}
