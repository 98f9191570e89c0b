// Where a walk stands: it is about to look at slot k, which has to begin at the address first.
ghost use Rattle.std.specs.Prelude.{◌≡◌, ◌≤◌, length};
ghost use Rattle.table.specs.Layout.{Slot};
ghost use Rattle.words.specs.Checks.{links_ok};
ghost use Rattle.walking.specs.Answers.{at_start, live_of, walk_end};

use table::layout;
use table::layout::{Field, HeadField};

// prev is the slot before and before its kind, since no two neighbours may be free; n chunks were met, and sum bytes of live ones.
#[derive(Clone, Copy)]
pub struct Place {
    pub prev: u64,
    pub k: u64,
    pub first: u64,
    pub before: u64,
    pub sum: u64,
    pub n: u64,
}

impl Place {
    // Nothing is before the first chunk, and it counts as live.
    pub fn start(k: u64) -> Place
        ensures { result ≡ at_start k }
    {
        Place {
            prev: 0,
            k,
            first: 0,
            before: 1,
            sum: 0,
            n: 0,
        }
    }

    // Whether slot k can follow slot prev, at the address first.
    #[tactic(auto, unfolding(words::specs::Checks::links_ok, laws::specs::Every::every))]
    pub fn links_ok(self, w: &[u64]) -> bool
        requires { Slot w.now self.k }
        ensures { result ≡ links_ok w.now self.prev self.first self.k }
    {
        layout::word(w, self.k, Field::FirstByte) == self.first
            && layout::word(w, self.k, Field::Previous) == self.prev
    }

    // What the chunk adds to the bytes allocated, where its kind and label keep the rules. The kind is a number, since the word may be
    // any before this looked at it.
    #[tactic(auto, unfolding(crate::specs::Answers::live_of, words::specs::Checks::kind_ok, laws::specs::Every::every))]
    pub fn live_bytes(self, w: &[u64]) -> Option<u64>
        requires { Slot w.now self.k }
        ensures { result ≡ live_of w.now self.before self.k }
    {
        match layout::word(w, self.k, Field::Kind) {
            0 if self.before == 0 || layout::word(w, self.k, Field::Label) != 0 => None,
            0 => Some(0),
            1 | 2 => Some(layout::word(w, self.k, Field::Size)),
            _ => None,
        }
    }

    // The walk ended at slot 0, at the block size, and with the live bytes that the head has.
    #[tactic(auto, unfolding(crate::specs::Answers::walk_end, laws::specs::Every::every))]
    pub fn end(self, w: &[u64]) -> Option<u64>
        requires { 4 ≤ length w.now }
        ensures { result ≡ walk_end w.now self }
    {
        let whole = self.k == 0
            && self.first == layout::head(w, HeadField::BlockSize)
            && self.sum == layout::head(w, HeadField::Allocated);
        whole.then_some(self.n)
    }
}
