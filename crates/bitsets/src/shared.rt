//! Which columns two rows share.
ghost use Rattle.std.specs.Prelude.{◌<◌, ◌≤◌, ◌+◌, ◌*◌, ◌/◌, ◌^◌, ℕ, MatchOption, length};
ghost use Rattle.bitsets.specs.Tables.{IsSet, NoneShared, IsFirstShared};

use crate::tables::BitTable;

/// The words of a row from its first word that isn't 0 to its last: the index of the first, and that after the last.
pub fn used_words(table: BitTable, row: usize) -> (usize, usize)
    requires row { row * table.width + table.width ≤ length table.words.now }
    ensures end { result.1 ≤ table.entry.width }
    ensures used { (y : ℕ) → y / 64 < table.entry.width → IsSet table.entry.words.now table.entry.width row y → (result.0 ≤ y / 64) × (y / 64 < result.1) }
{
    let mut low = table.width;
    let mut high = 0;
    for j in 0..table.width {
        if table.words[row * table.width + j] != 0 {
            low = low.min(j);
            high = j + 1;
        }
    }
    (low, high)
}

/// The first column that is set in row x of one table and in the given row of the other, which has bits only in the
/// words from `low` on and before `high`.
#[inline]
pub fn first_shared(
    table: BitTable,
    x: usize,
    other: &[u64],
    row: usize,
    low: usize,
    high: usize,
) -> Option<usize>
    requires fits { 64 * table.width < 2 ^ 64 }
    requires row { x * table.width + table.width ≤ length table.words.now }
    requires other_row { row * table.width + table.width ≤ length other.now }
    requires end { high ≤ table.width }
    requires used { (y : ℕ) → y / 64 < table.width → IsSet other.now table.width row y → (low ≤ y / 64) × (y / 64 < high) }
    ensures { MatchOption result (NoneShared table.entry.words.now x other.now row table.entry.width)
        (IsFirstShared table.entry.words.now x other.now row table.entry.width) }
{
    for j in low..high {
        let shared = table.words[x * table.width + j] & other[row * table.width + j];
        if shared != 0 {
            return Some(64 * j + shared.trailing_zeros() as usize);
        }
    }
    None
}
