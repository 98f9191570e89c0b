// The links of a slot's neighbours.
// A link of 0 is none, as in the words that it is read from and written to: an Option would be made and taken apart again.
ghost use Rattle.std.specs.Prelude.{◌≡◌, ◌≤◌, length};
ghost use Rattle.table.specs.Layout.{slot_count};
ghost use Rattle.pieces.specs.Stores.{next_of_set, previous_of_set};

use stores;
use table::layout::{Field, HeadField};

// Slot k comes after slot p. No twin of the other link's: before the first chunk stands the head, and after the last one nothing.
#[tactic(auto, unfolding(crate::specs::Stores::next_of_set))]
pub fn set_next_of(w: &mut [u64], p: u64, k: u64)
    requires { (4 ≤ length w.old) × (p ≤ slot_count w.old) }
    ensures { w.new ≡ next_of_set w.old p k }
{
    if p == 0 {
        stores::set_head(w, HeadField::FirstSlot, k);
        return;
    }
    stores::set_word(w, p, Field::Next, k);
}

// Slot k comes before slot n.
#[tactic(auto, unfolding(crate::specs::Stores::previous_of_set))]
pub fn set_previous_of(w: &mut [u64], n: u64, k: u64)
    requires { n ≤ slot_count w.old }
    ensures { w.new ≡ previous_of_set w.old n k }
{
    if n != 0 {
        stores::set_word(w, n, Field::Previous, k);
    }
}
