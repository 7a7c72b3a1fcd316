//! A linear congruential generator.

/// The number after this one.
pub fn next_word(word: u64) -> u64 {
    word.wrapping_mul(6364136223846793005)
        .wrapping_add(1442695040888963407)
}

/// Numbers from 0 to 2^31 - 1, the high bits of the words after a first one.
#[derive(Drop)]
pub struct Draws {
    word: u64,
}

impl Draws {
    /// Those after this word.
    pub fn new(word: u64) -> Draws {
        Draws { word }
    }

    /// The next number.
    pub fn draw(&mut self) -> u64 {
        self.word = next_word(self.word);
        self.word >> 33
    }

    /// The next number, modulo the bound, or 0 where the bound is 0.
    pub fn below(&mut self, bound: u64) -> u64 {
        self.draw().checked_rem(bound).unwrap_or(0)
    }
}
