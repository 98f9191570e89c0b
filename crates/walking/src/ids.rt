// Ids by buckets, so that one met again is found fast. A set of std would need a heap.
ghost use Rattle.std.specs.Prelude.{◌≡◌, ◌+◌, ◌*◌, ◌%◌, ◌^◌, ◌<◌, ◌≤◌, true, length};
ghost use Rattle.table.specs.Layout.{slot_count, Slot};
ghost use Rattle.words.specs.Ids.{AllAtMost, AllZero, Ends, AllEnd, bucket_of, on_chain, is_new, entered};
ghost use Rattle.walking.specs.Answers.{heads_and_links};

use crate::table_words::TableWords;
use table::layout;
use table::layout::Field;

// The last slot that was entered in each bucket, and for each slot the one before it in its bucket; 0 is none.
#[derive(Drop)]
pub struct Buckets {
    heads: [u16; 512],
    links: [u16; 512],
}

// x * (2^by + 1), of which 64 bits stay.
fn with_shifted(x: u64, by: u64) -> u64
    requires { by < 64 }
    ensures { result ≡ x * (2 ^ by + 1) % 2 ^ 64 }
{
    std::num::wrapping_add_u64(x << by, x)
}

// Ids in a stride leave few remainders, and are spread by this. The compiler makes one multiplication of the four, and has
// id - 1 from the test of its range.
fn bucket(id: u64) -> usize
    ensures { result ≡ bucket_of id }
{
    let before = std::num::wrapping_add_u64(id, u64::MAX);
    let few = with_shifted(with_shifted(before ^ 0x56565656, 8), 9);
    let spread = with_shifted(with_shifted(few, 14), 26);
    (spread >> 55) as usize
}

impl Buckets {
    // Buckets in which nothing was entered.
    pub fn new() -> Buckets
        ensures long { length (heads_and_links result) ≡ 1024 }
        ensures zero { AllZero (heads_and_links result) }
    {
        Buckets {
            heads: [0; 512],
            links: [0; 512],
        }
    }

    // Whether a slot on the chain from this one has the id.
    #[tactic(auto, using(table::specs::Layout::table_shape))]
    fn on_chain(&self, table: TableWords, start: u64, id: u64) -> bool
        requires { AllAtMost (slot_count table.words.now) (heads_and_links self.now)
            × (start ≤ slot_count table.words.now)
            × Ends (heads_and_links self.now) start }
        ensures { result ≡ on_chain table.entry.words.now (heads_and_links self.now) 512 start id }
    {
        let mut k = start;
        while k != 0 {
            if layout::word(table.words, k, Field::Id) == id {
                return true;
            }
            k = self.links[k as usize - 1] as u64;
        }
        false
    }

    // Enters slot k into its id's bucket, where no slot with this id is there yet. That every chain ends is asked for, and is no ghost
    // field: a chain would end no more if a slot were entered twice.
    #[tactic(auto, using(table::specs::Layout::table_shape, crate::proofs::Buckets::in_range))]
    pub fn enter(&mut self, table: TableWords, k: u64) -> bool
        requires { AllAtMost (slot_count table.words.now) (heads_and_links self.old)
            × AllEnd (heads_and_links self.old)
            × Slot table.words.now k }
        ensures value { result ≡ is_new table.entry.words.now (heads_and_links self.old) k }
        ensures after { result ≡ true
            → heads_and_links self.new ≡ entered table.entry.words.now (heads_and_links self.old) k }
    {
        let id = layout::word(table.words, k, Field::Id);
        let h = bucket(id);
        let start = self.heads[h];
        self.heads[h] = k as u16;
        if self.on_chain(table, start as u64, id) {
            return false;
        }
        self.links[k as usize - 1] = start;
        true
    }
}
