//! The sources of loads as numbers.
ghost use Rattle.std.specs.Prelude.{◌≡◌, ◌↔◌, ◌<◌, ◌^◌, ℕ, Some, length, IfSome, IfOk, OnOk};
ghost use Rattle.bitsets.specs.Rows.{HasNumber, Marks};
ghost use Rattle.tso_rules.specs.Internal.MarkedRows.{IsOtherSource, IsSourceIn, IsSourceOf};

use bitsets::{mark_if_some, word_at};
use std::alloc::Global;
use tso_ops::{OutOfMemory, Trace};

/// Marks the sources of the loads of word `j` whose bits are set, but not `u`.
#[inline]
pub(crate) fn mark_sources(
    trace: &Trace,
    marks: &mut Vec<u64>,
    u: usize,
    j: usize,
    word: u64,
) -> Result<(), OutOfMemory>
    requires { j < 2 ^ 32 }
    ensures { OnOk result (Marks marks.old.items marks.new.items (IsSourceIn trace.now u j word)) }
{
    let mut left = word;
    while left != 0 {
        let k = left.trailing_zeros() as usize;
        mark_if_some(marks, other_source(trace, u, 64 * j + k))?;
        left &= left - 1;
    }
    Ok(())
}

/// The source of load `l`, where it isn't `u`.
#[inline]
fn other_source(trace: &Trace, u: usize, l: usize) -> Option<usize>
    ensures is { IfSome result (IsOtherSource trace.now u l) }
    ensures all { (v : ℕ) → IsOtherSource trace.now u l v → result ≡ Some v }
{
    let s = trace.source_number(l)?;
    (u != s).then_some(s)
}

/// The sources of the loads that are in both rows, but not `u`, as a row of bits.
pub(crate) fn sources_of(
    alloc: Global,
    trace: &Trace,
    one: &[u64],
    two: &[u64],
    u: usize,
) -> Result<Vec<u64>, OutOfMemory>
    requires { length one.now < 2 ^ 32 }
    ensures { IfOk result (λ row. (v : ℕ) → HasNumber row.items v ↔ IsSourceOf trace.now one.now two.now u v) }
{
    let mut sources = Vec::with_capacity(alloc, one.len())?;
    for (j, word) in one.iter().enumerate() {
        mark_sources(trace, &mut sources, u, j, *word & word_at(two, j))?;
    }
    Ok(sources)
}
