// Whether a table is sound: the walk along "next" keeps the rules, and every other slot is seven zeros.
#![tactic(auto)]

ghost use Rattle.std.specs.Prelude.{true, ◌≡◌, ◌≤◌, length};
ghost use Rattle.table.specs.Layout.{is_table, slot_count, Slot};
ghost use Rattle.words.specs.Words.{sound};
ghost use Rattle.words.specs.Checks.{head_ok, others_zero, empty_below};

use table::layout;
use table::layout::{Field, HeadField};
use walking;
use words::ranges;

// Whether the words after the id of slot k are all 0; asked of every empty slot, so without a branch.
fn others_zero(w: &[u64], k: u64) -> bool
    requires { Slot w.now k }
    ensures { result ≡ others_zero w.now k }
{
    let chunk = layout::word(w, k, Field::Size)
        | layout::word(w, k, Field::FirstByte)
        | layout::word(w, k, Field::Kind)
        | layout::word(w, k, Field::Label);
    let links = layout::word(w, k, Field::Next) | layout::word(w, k, Field::Previous);
    chunk | links == 0
}

// Whether so many slots are empty, looked for from the last one down.
fn rest_empty(w: &[u64], s: u64, empty: u64) -> bool
    requires { s ≡ slot_count w.now }
    ensures { result ≡ empty_below w.now s empty }
{
    let mut left = empty;
    for k in (1..=s).rev() {
        if left == 0 {
            return true;
        }
        if layout::word(w, k, Field::Id) == 0 {
            if !others_zero(w, k) {
                return false;
            }
            left -= 1;
        }
    }
    left == 0
}

// Whether the block size is 1 to 2^40 and the next id at least 2.
#[tactic(auto, unfolding(words::specs::Checks::head_ok, laws::specs::Every::every))]
fn head_ok(w: &[u64]) -> bool
    requires { 4 ≤ length w.now }
    ensures { result ≡ head_ok w.now }
{
    let size = layout::head(w, HeadField::BlockSize);
    (1..=ranges::LARGEST_BLOCK).contains(&size) && 2 <= layout::head(w, HeadField::NextId)
}

// Whether words of a table keep its rules. A call has tested their count before.
pub fn is_sound(w: &[u64]) -> bool
    requires { is_table w.now ≡ true }
    ensures { result ≡ sound w.now }
{
    if !head_ok(w) {
        return false;
    }
    let Some(n) = walking::walk(w) else {
        return false;
    };
    let s = layout::slot_count(w);
    rest_empty(w, s, s - n)
}
