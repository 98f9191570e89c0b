// The lowest slot with an id: ids differ in a sound table, and an empty slot has id 0.
ghost use Rattle.std.specs.Prelude.{◌≡◌};
ghost use Rattle.table.specs.Layout.{slot_count};
ghost use Rattle.search.specs.Scan.{slot_with};
ghost use Rattle.search.specs.Slots.{within};

use table::layout;
use table::layout::Field;
use words::sound::SoundTable;

#[tactic(auto, using(words::proofs::Written::sound_is_table))]
pub fn slot_with(table: SoundTable, id: u64) -> Option<u64>
    ensures { result ≡ within (slot_count table.entry.words.now) (slot_with table.entry.words.now id) }
{
    (1..layout::slot_count(table.words) + 1).find(|&k| layout::word(table.words, k, Field::Id)
        == id)
}
