// The slot that a new chunk takes.
ghost use Rattle.std.specs.Prelude.{◌≡◌};
ghost use Rattle.model.specs.Placing.{new_slot};
ghost use Rattle.table.specs.Layout.{slot_count};
ghost use Rattle.words.specs.Words.{block_of};
ghost use Rattle.search.specs.Slots.{within};

use crate::scan;
use words::sound::SoundTable;

// The lowest empty slot.
pub fn empty_slot(table: SoundTable) -> Option<u64>
    ensures { result ≡ within (slot_count table.entry.words.now) (new_slot (block_of table.entry.words.now)) }
{
    scan::slot_with(table, 0)
}
