//! Rows of bits that are read.
ghost use Rattle.std.specs.Prelude.{◌≡◌, ◌↔◌, ◌<◌, ◌*◌, ◌+◌, ◌^◌, ℕ, IsTrue, slice_index};
ghost use Rattle.bitsets.specs.Rows.{HasBit, HasNumber};

/// Word `j` of a row of bits, which has no bits past its last word.
#[inline]
pub fn word_at(row: &[u64], j: usize) -> u64
    ensures { result ≡ slice_index row.now j }
{
    match row.get(j) {
        Some(word) => *word,
        None => 0,
    }
}

/// Whether the number is in a row of bits.
#[inline]
pub fn has_number(row: &[u64], number: usize) -> bool
    ensures { IsTrue result ↔ HasNumber row.now number }
{
    (word_at(row, number / 64) >> (number % 64)) & 1 == 1
}

/// Word `j` of the row of the numbers each one below a number of this row.
#[inline]
pub fn word_below(row: &[u64], j: usize) -> u64
    requires { j < 2 ^ 32 }
    ensures { (k : ℕ) → k < 64 → HasBit result k ↔ HasNumber row.now (64 * j + k + 1) }
{
    let word = word_at(row, j) >> 1;
    if has_number(row, 64 * (j + 1)) {
        word | 1 << 63
    } else {
        word
    }
}
