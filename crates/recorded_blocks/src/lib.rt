// Whether the calls of a free-list block answer as a recorded line says, on the words of its table; and the words that a block of either
// kind stands on. A line with too few or too many fields agrees with nothing, and is no call.
#![tactic(auto)]

pub mod calls;
mod checksum;

ghost use Rattle.std.specs.Prelude.{◌≤◌};
ghost use Rattle.table.specs.Layout.{most_words};

use crate::calls::SubAllocator;
use crate::checksum::checksum;
use giving_back;
use opening::{creation, questions};
use placing;
use refusals::Refusal;
use sub_allocator::answers::Placement;
use sub_allocator::request::Request;
use table::layout;
use table::layout::HeadField;

// Room for the largest table. The block at hand stands on the first words of it, and on none while there is no block: a free-list block on
// those of its table, a dedicated one on three.
#[derive(Clone, Copy)]
pub struct Store {
    words: [u64; layout::MOST_WORDS],
    lent: Lent,
}

// How many words that is.
#[derive(Clone, Copy)]
struct Lent {
    count: usize,
    ghost within: { count ≤ most_words },
}

// A free-list block on the words of its table.
#[derive(Drop)]
struct Table<'a>(&'a mut [u64]);

impl SubAllocator for Table<'_> {
    fn allocate(&mut self, request: Request) -> Result<Placement, Refusal> {
        placing::allocate(self.0, request)
    }

    fn free(&mut self, id: u64) -> Result<(), Refusal> {
        giving_back::free(self.0, id)
    }

    fn rename_allocation(&mut self, id: u64, label: u64) -> Result<(), Refusal> {
        giving_back::rename_allocation(self.0, id, label)
    }

    fn left(&self) -> Option<(u64, u64)> {
        let allocated = questions::allocated(self.0).ok()?;
        Some((allocated, checksum(self.0)))
    }
}

// What words hold before a block is made on them: the same in the recorder, and nowhere 0.
fn spoil(words: &mut [u64]) {
    for (i, word) in words.iter_mut().enumerate() {
        *word = u64::MAX - i as u64;
    }
}

// No call sets the next id: the recorder did, by hand.
fn next_id_agrees(words: &mut [u64], next: u64, check: u64) -> bool {
    if !layout::is_table(words) {
        return false;
    }
    stores::set_head(words, HeadField::NextId, next);
    checksum(words) == check
}

impl Store {
    pub fn new() -> Self {
        Store {
            words: [0; layout::MOST_WORDS],
            lent: Lent { count: 0 },
        }
    }

    // The words of the block at hand.
    pub fn lent(&self) -> &[u64] {
        &self.words[..self.lent.count]
    }

    // The record of a dedicated block, which is the block at hand from now on.
    pub fn put(&mut self, record: [u64; 3]) {
        self.words[..3].copy_from_slice(&record);
        self.lent = Lent { count: 3 };
    }

    // A refused block is none, and the one before it is gone; the words are as they were.
    fn creation_agrees(&mut self, size: u64, slots: u64, number: u64, check: u64) -> bool {
        if slots == 0 || layout::MOST_SLOTS < slots {
            return false;
        }
        let count = layout::word_count(slots);
        let words = &mut self.words[..count];
        spoil(words);
        let answer = creation::new(words, size);
        let sum = checksum(words);
        self.lent = Lent {
            count: if answer.is_ok() { count } else { 0 },
        };
        refusals::number(&answer) == number && sum == check
    }

    // The first field says which call.
    pub fn agrees(&mut self, fields: &[u64]) -> bool {
        match *fields {
            [5, size, slots, number, check] => self.creation_agrees(size, slots, number, check),
            [6..=8, ..] => {
                calls::call_agrees(&mut Table(&mut self.words[..self.lent.count]), fields)
            }
            [9, next, check] => next_id_agrees(&mut self.words[..self.lent.count], next, check),
            _ => false,
        }
    }
}
