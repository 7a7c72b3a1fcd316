//! Rows of bits that grow as numbers are marked in them.
ghost use Rattle.std.specs.Prelude.{◌≡◌, ◌↔◌, ◌<◌, ◌/◌, ◌%◌, ℕ, Some, OnOk, length};
ghost use Rattle.bitsets.specs.Rows.{HasBit, HasNumber, Marks};

use std::alloc::AllocError;

/// Adds words without bits until the row has word `j`.
fn extend(row: &mut Vec<u64>, j: usize) -> Result<(), AllocError>
    ensures long { OnOk result (j < length row.new.items) }
    ensures same { OnOk result ((v : ℕ) → HasNumber row.new.items v ↔ HasNumber row.old.items v) }
{
    for _ in row.len()..=j {
        row.push(0)?;
    }
    Ok(())
}

/// Marks the numbers of word `j` whose bits are set: it allocates nothing where there are none. OutOfMemory where an
/// allocation was refused.
#[inline]
pub fn mark_word(marks: &mut Vec<u64>, j: usize, word: u64) -> Result<(), AllocError>
    ensures { OnOk result (Marks marks.old.items marks.new.items (λ v. (v / 64 ≡ j) × HasBit word (v % 64))) }
{
    if word == 0 {
        return Ok(());
    }
    if marks.len() <= j {
        extend(marks, j)?;
    }
    marks[j] |= word;
    Ok(())
}

/// Marks the numbers of a row. OutOfMemory where an allocation was refused.
pub fn mark_row(marks: &mut Vec<u64>, row: &[u64]) -> Result<(), AllocError>
    ensures { OnOk result (Marks marks.old.items marks.new.items (HasNumber row.now)) }
{
    for j in 0..row.len() {
        mark_word(marks, j, row[j])?;
    }
    Ok(())
}

/// Marks the number. OutOfMemory where an allocation was refused.
#[inline]
pub fn mark(marks: &mut Vec<u64>, number: usize) -> Result<(), AllocError>
    ensures { OnOk result (Marks marks.old.items marks.new.items (λ v. v ≡ number)) }
{
    mark_word(marks, number / 64, 1 << (number % 64))
}

/// Marks the number, if there is one. OutOfMemory where an allocation was refused.
#[inline]
pub fn mark_if_some(marks: &mut Vec<u64>, number: Option<usize>) -> Result<(), AllocError>
    ensures { OnOk result (Marks marks.old.items marks.new.items (λ v. number ≡ Some v)) }
{
    match number {
        Some(n) => mark(marks, n),
        None => Ok(()),
    }
}
