//! What a log says of an operation, and what its values tell of a load.

use log_selections::KnownLog;
use log_text::LoggedOperation;

/// The number of the first event of an operation, from 1: a swap's store has the number after its load's.
#[inline]
pub(crate) fn number_of(known: &KnownLog, processor: usize, operation: usize) -> Option<usize> {
    match known.numbers().get(processor) {
        Some(list) => list.get(operation).copied(),
        None => None,
    }
}

/// The operation at an index of a processor's list.
#[inline]
pub(crate) fn logged_at(
    known: &KnownLog,
    processor: usize,
    operation: usize,
) -> Option<LoggedOperation> {
    match known.log().lists.get(processor) {
        Some(list) => list.get(operation).copied(),
        None => None,
    }
}

/// The line of an operation, 0 where there is none.
#[inline]
pub(crate) fn line_of(known: &KnownLog, processor: usize, operation: usize) -> usize {
    match logged_at(known, processor, operation) {
        Some(logged) => logged.line,
        None => 0,
    }
}

/// The number of the source of the load of this number, 0 for the first value; None where it isn't known.
#[inline]
pub(crate) fn source_of(known: &KnownLog, number: usize) -> Option<usize> {
    match known.sources().get(number) {
        Some(source) => *source,
        None => None,
    }
}
