//! The rows that have to be computed again after a graph grew.
ghost use Rattle.std.specs.Prelude.{IfOk, OnOk};
ghost use Rattle.bitsets.specs.Rows.{IsListOf, Marks};
ghost use Rattle.tso_rules.specs.Affected.{RestsOn, IsAffected};

use crate::base::event_end;
use bitsets::{mark_if_some, mark_row, marked};
use std::alloc::Global;
use tso_ops::{OutOfMemory, Trace};

/// The numbers whose rows of new edges can change where these numbers reach more than before: the numbers themselves, the
/// loads whose source is one of them, and the stores of the swaps whose load is. Ascending, and each the number of an event.
/// OutOfMemory where an allocation was refused.
///
/// `laws::unaffected_rows` says that no other row has an edge to give. It takes a few looks at each of the numbers, and at
/// each word of the row of its readers.
pub fn affected_rows(
    alloc: Global,
    trace: &Trace,
    grown: &[usize],
) -> Result<Vec<usize>, OutOfMemory>
    ensures { IfOk result (λ rows. IsListOf rows.items (IsAffected trace.now grown.now)) }
{
    let mut marks = Vec::with_capacity(alloc, trace.node_count().div_ceil(64))?;
    for k in 0..grown.len() {
        mark_affected(trace, &mut marks, grown[k])?;
    }
    marked(alloc, &marks, trace.node_count())
}

/// Marks the numbers whose rows rest on this one.
fn mark_affected(trace: &Trace, marks: &mut Vec<u64>, grown: usize) -> Result<(), OutOfMemory>
    ensures { OnOk result (Marks marks.old.items marks.new.items (RestsOn trace.now grown)) }
{
    mark_if_some(marks, event_end(trace, grown))?;
    mark_row(marks, trace.reader_words(grown))?;
    mark_if_some(marks, trace.swap_store(grown))
}
