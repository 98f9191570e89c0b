// A slot of a sound table that holds a chunk: the words of the chunk, and its neighbours.
ghost use Rattle.std.specs.Prelude.{◌≡◌, ◌≢◌, eqb, MatchOption};
ghost use Rattle.table.specs.Layout.{first_slot, kind_at, next_at, previous_at};
ghost use Rattle.table.specs.Named.{field_at};
ghost use Rattle.words.specs.Soundness.{Used};

use table::layout;
use table::layout::{Field, HeadField};
use words::sound::SoundTable;

#[derive(Clone, Copy)]
pub(crate) struct Held<'a> {
    pub(crate) table: SoundTable<'a>,
    pub(crate) slot: u64,
    ghost held: { Used table.words.now slot },
}

// The chunk in a slot, none for slot 0.
fn in_slot<'a>(table: SoundTable<'a>, slot: u64) -> Option<Held<'a>>
    requires { slot ≢ 0 → Used table.words.now slot }
    ensures { MatchOption result (slot ≡ 0) (λ h. (h.table ≡ table.entry) × (h.slot ≡ slot)) }
{
    if slot == 0 {
        return None;
    }
    Some(Held { table, slot })
}

// The chunk at address 0.
pub(crate) fn first<'a>(table: SoundTable<'a>) -> Option<Held<'a>>
    ensures { MatchOption result (first_slot table.entry.words.now ≡ 0) (λ h. (h.table ≡ table.entry) × (h.slot ≡ first_slot table.entry.words.now)) }
{
    in_slot(table, layout::head(table.words, HeadField::FirstSlot))
}

impl<'a> Held<'a> {
    pub(crate) fn word(self, field: Field) -> u64
        ensures { result ≡ field_at field self.entry.table.words.now self.entry.slot }
    {
        layout::word(self.table.words, self.slot, field)
    }

    pub(crate) fn is_free(self) -> bool
        ensures { result ≡ eqb (kind_at self.entry.table.words.now self.entry.slot) 0 }
    {
        layout::is_free(self.table.words, self.slot)
    }

    // The chunk that begins where this one ends.
    pub(crate) fn next(self) -> Option<Held<'a>>
        ensures { MatchOption result (next_at self.entry.table.words.now self.entry.slot ≡ 0) (λ h. (h.table ≡ self.entry.table) × (h.slot ≡ next_at self.entry.table.words.now self.entry.slot)) }
    {
        in_slot(self.table, self.word(Field::Next))
    }

    // The chunk that ends where this one begins.
    pub(crate) fn previous(self) -> Option<Held<'a>>
        ensures { MatchOption result (previous_at self.entry.table.words.now self.entry.slot ≡ 0) (λ h. (h.table ≡ self.entry.table) × (h.slot ≡ previous_at self.entry.table.words.now self.entry.slot)) }
    {
        in_slot(self.table, self.word(Field::Previous))
    }
}
