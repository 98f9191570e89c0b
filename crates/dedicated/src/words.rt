// A dedicated block's record as three words, read and written.
ghost use Rattle.std.specs.Prelude.{◌≡◌};
ghost use Rattle.dedicated.specs.RecordWords.{record_of, words_of};

use crate::record::DedicatedBlock;

impl From<[u64; 3]> for DedicatedBlock {
    ghost from_gives = { λ words block. block ≡ record_of words };

    fn from(words: [u64; 3]) -> DedicatedBlock {
        let [size, allocated, label] = words;
        DedicatedBlock {
            size,
            allocated,
            label,
        }
    }
}

impl From<DedicatedBlock> for [u64; 3] {
    ghost from_gives = { λ block words. words ≡ words_of block };

    fn from(block: DedicatedBlock) -> [u64; 3] {
        [block.size, block.allocated, block.label]
    }
}
