// A number for all words of a table, by which a recorded line knows them.

// The sum is turned by five bits before each word, so that the order of the words counts.
pub fn checksum(words: &[u64]) -> u64 {
    words.iter().fold(0, |sum: u64, word| {
        (sum.rotate_left(5) ^ *word).wrapping_add(0x9E3779B97F4A7C15)
    })
}
