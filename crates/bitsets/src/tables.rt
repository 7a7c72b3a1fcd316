//! Flat tables of bits: rows of words, one after another.
//!
//! A table that is read is a `BitTable`. One that is written is a slice of words, with the number of words of a row.
ghost use Rattle.std.specs.Prelude.{◌≡◌, ◌⊎◌, ◌↔◌, ◌<◌, ◌≤◌, ◌+◌, ◌*◌, ◌/◌, ◌%◌, ◌^◌, ℕ, IsTrue, length};
ghost use Rattle.bitsets.specs.Rows.{HasBit, HasNumber};
ghost use Rattle.bitsets.specs.Tables.{IsSet, Adds, Loses};

/// A table to read: its words, and the number of words of a row.
#[derive(Clone, Copy)]
pub struct BitTable<'a> {
    pub words: &'a [u64],
    pub width: usize,
}

/// Whether the bit of row x and column y is set.
#[inline]
pub fn bit(table: BitTable, x: usize, y: usize) -> bool
    requires column { y / 64 < table.width }
    requires row { x * table.width + table.width ≤ length table.words.now }
    ensures { IsTrue result ↔ IsSet table.entry.words.now table.entry.width x y }
{
    (table.words[x * table.width + y / 64] >> (y % 64)) & 1 == 1
}

/// Sets the bit of row x and column y.
#[inline]
pub fn set_bit(table: &mut [u64], width: usize, x: usize, y: usize)
    requires column { y / 64 < width }
    requires row { x * width + width ≤ length table.old }
    ensures { Adds table.old table.new width (λ i j. (i ≡ x) × (j ≡ y)) }
{
    let place = x * width + y / 64;
    table[place] |= 1 << (y % 64);
}

/// Clears the bit of row x and column y.
#[inline]
pub fn clear_bit(table: &mut [u64], width: usize, x: usize, y: usize)
    requires column { y / 64 < width }
    requires row { x * width + width ≤ length table.old }
    ensures { Loses table.old table.new width x y }
{
    let place = x * width + y / 64;
    table[place] &= !(1 << (y % 64));
}

/// Sets the given bits in word j of row x, and returns those that were not set.
#[inline]
pub fn set_word(table: &mut [u64], width: usize, x: usize, j: usize, given: u64) -> u64
    requires column { j < width }
    requires row { x * width + width ≤ length table.old }
    ensures added { Adds table.old table.new width (λ i y. (i ≡ x) × (y / 64 ≡ j) × HasBit given (y % 64)) }
    ensures fresh { (y : ℕ) → y / 64 ≡ j → HasBit result (y % 64) ↔ (HasBit given (y % 64) × (IsSet table.old width x y → ⊥)) }
{
    let place = x * width + j;
    let word = table[place];
    table[place] = word | given;
    given & !word
}

/// Sets the given bits in word i of the rows whose numbers are the bits of word j, and returns those that some of these
/// rows lacked.
#[inline]
pub fn set_words(table: &mut [u64], width: usize, j: usize, rows: u64, i: usize, given: u64) -> u64
    requires column { i < width }
    requires fits { 64 * j + 64 < 2 ^ 64 }
    requires within { (k : ℕ) → k < 64 → HasBit rows k → (64 * j + k) * width + width ≤ length table.old }
    ensures added { Adds table.old table.new width (λ y x. (y / 64 ≡ j) × HasBit rows (y % 64) × (x / 64 ≡ i) × HasBit given (x % 64)) }
    ensures some { (k : ℕ) → k < 64 → HasBit result k → HasBit given k }
    ensures fresh { (y x : ℕ) → y / 64 ≡ j → HasBit rows (y % 64) → x / 64 ≡ i → HasBit given (x % 64) →
        IsSet table.old width y x ⊎ HasBit result (x % 64) }
{
    if given == 0 {
        return 0;
    }
    let mut fresh = 0;
    let mut left = rows;
    while left != 0 {
        let k = left.trailing_zeros() as usize;
        fresh |= set_word(table, width, 64 * j + k, i, given);
        left &= !(1 << k);
    }
    fresh
}

/// Gives row x of a table the numbers of a row of words, those that lie within the table's width.
pub fn add_words(table: &mut [u64], width: usize, x: usize, words: &[u64])
    requires row { x * width + width ≤ length table.old }
    ensures { Adds table.old table.new width (λ i y. (i ≡ x) × HasNumber words.now y) }
{
    for j in 0..width.min(words.len()) {
        set_word(table, width, x, j, words[j]);
    }
}

/// Gives row `row` of a table the columns, from word `first` on, that row x of another table has.
#[inline]
pub fn or_row(table: &mut [u64], row: usize, other: BitTable, x: usize, first: usize)
    requires row { row * other.width + other.width ≤ length table.old }
    requires other_row { x * other.width + other.width ≤ length other.words.now }
    ensures { Adds table.old table.new other.entry.width (λ i y. (i ≡ row) × (first ≤ y / 64) × IsSet other.entry.words.now other.entry.width x y) }
{
    for j in first..other.width {
        set_word(table, other.width, row, j, other.words[x * other.width + j]);
    }
}

/// Gives row `row` of a table the columns, from word `first` on, of another table's rows whose numbers are the bits of
/// word i.
#[inline]
pub fn or_rows(table: &mut [u64], row: usize, other: BitTable, i: usize, rows: u64, first: usize)
    requires fits { 64 * i + 64 < 2 ^ 64 }
    requires row { row * other.width + other.width ≤ length table.old }
    requires within { (k : ℕ) → k < 64 → HasBit rows k → (64 * i + k) * other.width + other.width ≤ length other.words.now }
    ensures { Adds table.old table.new other.entry.width (λ r y. (r ≡ row) × (first ≤ y / 64) ×
        ((x : ℕ) × (x / 64 ≡ i) × HasBit rows (x % 64) × IsSet other.entry.words.now other.entry.width x y)) }
{
    let mut left = rows;
    while left != 0 {
        let k = left.trailing_zeros() as usize;
        or_row(table, row, other, 64 * i + k, first);
        left &= !(1 << k);
    }
}
