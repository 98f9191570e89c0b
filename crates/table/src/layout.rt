// Where the words of a table stand: a head of four words, then seven for each slot.
ghost use Rattle.std.specs.Prelude.{true, ◌≡◌, ◌+◌, ◌-◌, ◌^◌, ◌≤◌, ◌<◌, eqb, length};
ghost use Rattle.table.specs.Layout.{at, most_slots, word_count, is_table, slot_count, Slot, kind_at};
ghost use Rattle.table.specs.Named.{head_word, field_at, place_of, place_at};

// A table has at most so many slots, and then so many words.
pub const MOST_SLOTS: u64 = 512;

pub const MOST_WORDS: usize = 3588;

// The words of the head, by place.
#[derive(Clone, Copy, Debug, PartialEq, Eq)]
pub enum HeadField {
    BlockSize,
    Allocated,
    NextId,
    FirstSlot,
}

// The words of a slot, by place.
#[derive(Clone, Copy, Debug, PartialEq, Eq)]
pub enum Field {
    Id,
    Size,
    FirstByte,
    Kind,
    Label,
    Next,
    Previous,
}

// Where a word of slot k stands.
#[tactic(auto, unfolding(crate::specs::Named::place_of))]
pub fn place(k: u64, field: Field) -> usize
    requires { (1 ≤ k) × (at k 6 < 2 ^ 64) }
    ensures { result ≡ place_at k field }
{
    4 + 7 * (k as usize - 1) + field as usize
}

// A word of the head.
pub fn head(w: &[u64], which: HeadField) -> u64
    requires { 4 ≤ length w.now }
    ensures { result ≡ head_word which w.now }
{
    w[which as usize]
}

// A word of slot k.
pub fn word(w: &[u64], k: u64, field: Field) -> u64
    requires { Slot w.now k }
    ensures { result ≡ field_at field w.now k }
{
    w[place(k, field)]
}

// Whether slot k is of kind 0: that of a free chunk, and of an empty slot.
pub fn is_free(w: &[u64], k: u64) -> bool
    requires { Slot w.now k }
    ensures { result ≡ eqb (kind_at w.now k) 0 }
{
    word(w, k, Field::Kind) == 0
}

// How many words a table of so many slots has.
pub fn word_count(slots: u64) -> usize
    requires { slots ≤ most_slots }
    ensures { result ≡ word_count slots }
{
    4 + 7 * slots as usize
}

// Whether the word count is 4 + 7s, s from 1 to 512.
#[tactic(auto, unfolding(crate::specs::Layout::is_table, laws::specs::Every::every))]
pub fn is_table(w: &[u64]) -> bool
    ensures { result ≡ is_table w.now }
{
    let s = w.len().saturating_sub(4) / 7;
    (1..=512).contains(&s) && w.len() == 4 + 7 * s
}

// That words are a table's is a clause of the few that ask for it: a struct that knows it would lend them to be read, and one of the few writes.
pub fn slot_count(w: &[u64]) -> u64
    requires { is_table w.now ≡ true }
    ensures { result ≡ slot_count w.now }
{
    ((w.len() - 4) / 7) as u64
}
