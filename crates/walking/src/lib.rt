// The walk along "next" through a table, which tests each chunk that it meets.
#![tactic(auto)]

mod ids;
mod place;
mod table_words;

ghost use Rattle.std.specs.Prelude.{true, ◌≡◌, ◌≤◌};
ghost use Rattle.table.specs.Layout.{is_table, next_id};
ghost use Rattle.walking.specs.Answers.{whole_walk};

use ids::Buckets;
use place::Place;
use table::layout;
use table::layout::{Field, HeadField};
use table_words::TableWords;
use words::ranges;

// Walks along "next" from address 0, and answers how many chunks it met, where no rule is broken.
#[tactic(auto, using(table::specs::Layout::table_shape, crate::proofs::Turns::is_slot))]
pub fn walk(w: &[u64]) -> Option<u64>
    requires { (is_table w.now ≡ true) × (2 ≤ next_id w.now) }
    ensures { result ≡ whole_walk w.now }
{
    let table = TableWords { words: w };
    let s = layout::slot_count(w);
    let top = layout::head(w, HeadField::NextId) - 1;
    let mut buckets = Buckets::new();
    let mut at = Place::start(layout::head(w, HeadField::FirstSlot));
    while ranges::is_up_to(s, at.k) {
        if !at.links_ok(w) {
            return None;
        }
        if !ranges::is_up_to(top, layout::word(w, at.k, Field::Id)) {
            return None;
        }
        if !buckets.enter(table, at.k) {
            return None;
        }
        // wraps only past any block's end, and an end that does not rise is a size of 0 or has wrapped
        let end = std::num::wrapping_add_u64(at.first, layout::word(w, at.k, Field::Size));
        if end <= at.first {
            return None;
        }
        let live = at.live_bytes(w)?;
        at = Place {
            prev: at.k,
            k: layout::word(w, at.k, Field::Next),
            first: end,
            before: layout::word(w, at.k, Field::Kind),
            sum: at.sum + live,
            n: at.n + 1,
        };
    }
    at.end(w)
}
