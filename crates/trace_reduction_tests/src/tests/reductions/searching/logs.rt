//! What is kept of logs.

use log_selections::{Kept, KnownLog};
use log_text::{LogOperation, LoggedOperation};
use std::alloc::Global;
use tso_ops::{OutOfMemory, Part};

/// The operations of a log whose loads have a known source: of a swap whose load has none the store.
pub(super) fn all_known(alloc: Global, known: &KnownLog) -> Result<Vec<Vec<Kept>>, OutOfMemory> {
    let mut lists = Vec::new(alloc);
    for (list, numbers) in known.log().lists.iter().zip(known.numbers()) {
        lists.push(known_list(alloc, known, list, numbers)?)?;
    }
    Ok(lists)
}

fn known_list(
    alloc: Global,
    known: &KnownLog,
    list: &[LoggedOperation],
    numbers: &[usize],
) -> Result<Vec<Kept>, OutOfMemory> {
    let mut kept = Vec::new(alloc);
    for (index, (logged, number)) in list.iter().zip(numbers).enumerate() {
        if let Some(part) = known_part(known, logged.operation, *number) {
            kept.push(Kept { index, part })?;
        }
    }
    Ok(kept)
}

/// What is kept of an operation, of which this is the number.
fn known_part(known: &KnownLog, operation: LogOperation, number: usize) -> Option<Part> {
    let is_known = known.sources().get(number).copied().flatten().is_some();
    match operation {
        LogOperation::Ld { .. } if !is_known => None,
        LogOperation::Sw { .. } if !is_known => Some(Part::SwapStore),
        _ => Some(Part::Whole),
    }
}
