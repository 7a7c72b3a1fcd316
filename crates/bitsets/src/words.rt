//! One word of a row of bits.
ghost use Rattle.std.specs.Prelude.{◌≡◌, ◌≢◌, ◌⊎◌, ◌↔◌, ◌<◌, ◌*◌, ◌+◌, ℕ};
ghost use Rattle.bitsets.specs.Rows.{HasBit};

/// Word j of a row, with the bit of the number y if it lies there.
#[inline]
pub fn with_bit(word: u64, j: usize, y: usize) -> u64
    ensures { (k : ℕ) → k < 64 → HasBit result k ↔ ((64 * j + k ≡ y) ⊎ HasBit word k) }
{
    if y / 64 == j {
        word | 1 << (y % 64)
    } else {
        word
    }
}

/// Word `j` of the row of all numbers above `u`.
#[inline]
pub fn word_above(u: usize, j: usize) -> u64
    ensures { (k : ℕ) → k < 64 → HasBit result k ↔ (u < 64 * j + k) }
{
    if j > u / 64 {
        u64::MAX
    } else if j == u / 64 {
        (u64::MAX << (u % 64)) & !(1 << (u % 64))
    } else {
        0
    }
}

/// Word `j` of a row without this number.
#[inline]
pub fn word_without(word: u64, j: usize, number: usize) -> u64
    ensures { (k : ℕ) → k < 64 → HasBit result k ↔ (HasBit word k × ((64 * j + k) ≢ number)) }
{
    if j == number / 64 {
        word & !(1 << (number % 64))
    } else {
        word
    }
}
