// Writing the words of a table, one at a time or a slot's seven.
// `4 ≤ length` and `Slot` stay clauses: each ties an index to the words, as a slice's bounds do, and a type would be made anew at each store.
#![tactic(auto)]

ghost use Rattle.std.specs.Prelude.{◌≡◌, ◌+◌, ◌-◌, ◌≤◌, ◌<◌, ◌^◌, length, set};
ghost use Rattle.table.specs.Layout.{Slot, at, allocated_word, next_id};
ghost use Rattle.table.specs.Named.{head_place, place_of};
ghost use Rattle.stores.specs.Stores.{set_row};

use table::layout;
use table::layout::{Field, HeadField};

// The words of a slot; of an empty one all are 0.
#[derive(Clone, Copy, Default)]
pub struct Row {
    pub id: u64,
    pub size: u64,
    pub first_byte: u64,
    pub kind: u64,
    pub label: u64,
    pub next: u64,
    pub previous: u64,
}

// Stores a word of the head.
pub fn set_head(w: &mut [u64], which: HeadField, v: u64)
    requires { 4 ≤ length w.old }
    ensures { w.new ≡ set w.old (head_place which) v }
{
    w[which as usize] = v;
}

// Stores a word of slot k.
pub fn set_word(w: &mut [u64], k: u64, field: Field, v: u64)
    requires { Slot w.old k }
    ensures { w.new ≡ set w.old (at k (place_of field)) v }
{
    w[layout::place(k, field)] = v;
}

// Stores all words of slot k.
#[tactic(auto, unfolding(crate::specs::Stores::set_row))]
pub fn set_row(w: &mut [u64], k: u64, row: Row)
    requires { Slot w.old k }
    ensures { w.new ≡ set_row w.old k row }
{
    set_word(w, k, Field::Id, row.id);
    set_word(w, k, Field::Size, row.size);
    set_word(w, k, Field::FirstByte, row.first_byte);
    set_word(w, k, Field::Kind, row.kind);
    set_word(w, k, Field::Label, row.label);
    set_word(w, k, Field::Next, row.next);
    set_word(w, k, Field::Previous, row.previous);
}

// Allocated rises by n.
pub fn raise_allocated(w: &mut [u64], n: u64)
    requires { (4 ≤ length w.old) × (allocated_word w.old + n < 2 ^ 64) }
    ensures { w.new ≡ set w.old 1 (allocated_word w.old + n) }
{
    let allocated = layout::head(w, HeadField::Allocated);
    set_head(w, HeadField::Allocated, allocated + n);
}

// It falls by n.
pub fn lower_allocated(w: &mut [u64], n: u64)
    requires { (4 ≤ length w.old) × (n ≤ allocated_word w.old) }
    ensures { w.new ≡ set w.old 1 (allocated_word w.old - n) }
{
    let allocated = layout::head(w, HeadField::Allocated);
    set_head(w, HeadField::Allocated, allocated - n);
}

// The next id, which is spent.
pub fn spend_id(w: &mut [u64]) -> u64
    requires { (4 ≤ length w.old) × (next_id w.old + 1 < 2 ^ 64) }
    ensures value { result ≡ next_id w.old }
    ensures w_after { w.new ≡ set w.old 2 (next_id w.old + 1) }
{
    let id = layout::head(w, HeadField::NextId);
    set_head(w, HeadField::NextId, id + 1);
    id
}
