//! The numbers of a row as a list.
ghost use Rattle.std.specs.Prelude.{◌<◌, ◌*◌, ◌+◌, ◌^◌, ℕ, IfOk, OnOk};
ghost use Rattle.bitsets.specs.Rows.{HasNumber, IsListOf};
ghost use Rattle.bitsets.specs.Internal.Lists.{IsListBelow};

use crate::rows::word_at;
use std::alloc::{AllocError, Global};

/// The marked numbers, ascending: they are below `bound`. OutOfMemory where an allocation was refused.
pub fn marked(alloc: Global, marks: &[u64], bound: usize) -> Result<Vec<usize>, AllocError>
    requires small { bound < 2 ^ 32 }
    requires within { (v : ℕ) → HasNumber marks.now v → v < bound }
    ensures { IfOk result (λ list. IsListOf list.items (HasNumber marks.now)) }
{
    if marks.is_empty() {
        return Ok(Vec::new(alloc));
    }
    let mut list = Vec::with_capacity(alloc, count(marks))?;
    for j in 0..bound.div_ceil(64) {
        push_marked(&mut list, marks, j)?;
    }
    Ok(list)
}

/// The number of marks, for which a list has room.
fn count(marks: &[u64]) -> usize {
    let mut count = 0usize;
    for word in marks {
        count = count.saturating_add(word.count_ones() as usize);
    }
    count
}

/// Pushes the marked numbers of word `j`, ascending.
fn push_marked(list: &mut Vec<usize>, marks: &[u64], j: usize) -> Result<(), AllocError>
    requires small { j < 2 ^ 32 }
    requires before { IsListBelow list.old.items (HasNumber marks.now) (64 * j) }
    ensures { OnOk result (IsListBelow list.new.items (HasNumber marks.now) (64 * (j + 1))) }
{
    let mut left = word_at(marks, j);
    while left != 0 {
        let k = left.trailing_zeros() as usize;
        list.push(64 * j + k)?;
        left &= left - 1;
    }
    Ok(())
}
