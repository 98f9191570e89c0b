// Why a call is refused: each of the paper's numbers under a name, and the number that an answer is given back by.
#![tactic(auto)]

ghost use Rattle.std.specs.Prelude.{◌≡◌};
ghost use Rattle.refusals.specs.Refusals.{number_of, fault_of};

use std::error::Error;
use std::fmt;

// A call was refused, and changed nothing. Each number has one meaning, whichever call gives it.
#[derive(Clone, Copy, Debug, PartialEq, Eq, Hash)]
pub enum Refusal {
    WordCount = 1,
    Unsound = 2,
    ZeroSize = 3,
    Alignment = 4,
    Granularity = 5,
    Kind = 6,
    NoRoom = 7,
    NoId = 8,
    NoSlot = 9,
    UnknownId = 10,
    Occupied = 11,
    OtherSize = 12,
    BlockSize = 13,
    Sizes = 14,
    Amount = 15,
    ShortBuffer = 16,
    NotId1 = 18,
}

impl From<Refusal> for u64 {
    ghost from_gives = { λ refusal n. n ≡ number_of refusal };

    fn from(refusal: Refusal) -> u64 {
        refusal as u64
    }
}

impl fmt::Display for Refusal {
    ghost use Rattle.std.specs.Prelude.{Some};
    ghost use Rattle.refusals.specs.Texts.{text_of};

    ghost output = { λ refusal. Some (text_of refusal) };

    fn fmt<W: fmt::Write>(&self, f: &mut fmt::Formatter<W>) -> fmt::Result {
        f.write_str(match self {
            Refusal::WordCount => "the number of words is not that of a table",
            Refusal::Unsound => "the chunk table, or the record of a dedicated block, is not sound",
            Refusal::ZeroSize => "the size is 0",
            Refusal::Alignment => "the alignment is not a power of two",
            Refusal::Granularity => "the granularity is not a power of two",
            Refusal::Kind => "the kind is neither 1, linear, nor 2, non-linear",
            Refusal::NoRoom => "no free chunk holds the request",
            Refusal::NoId => "a chunk would have to be split, and no id is left",
            Refusal::NoSlot => "a chunk would have to be split, and no slot is empty",
            Refusal::UnknownId => "no live chunk has this id",
            Refusal::Occupied => "the dedicated block is occupied",
            Refusal::OtherSize => "the size is not that of the dedicated block",
            Refusal::BlockSize => "the block size is 0, or too large for a free-list block",
            Refusal::Sizes => "the block-size rules cannot produce these sizes",
            Refusal::Amount => "the amount is too large for a text",
            Refusal::ShortBuffer => "the buffer is too short for the text",
            Refusal::NotId1 => "the id is not 1, the only one of a dedicated block",
        })
    }
}

impl Error for Refusal {}

// The number that an answer is given back by: 0 where the call was accepted.
pub fn number<T>(answer: &Result<T, Refusal>) -> u64
    ensures { result ≡ fault_of answer.now }
{
    match answer {
        Ok(_) => 0,
        Err(refusal) => u64::from(*refusal),
    }
}
