//! Loads that say no more than one near by, as a loop that waits leaves them.
ghost use Rattle.std.specs.Prelude.{◌≡◌, ◌+◌, ◌≤◌, IfOk, None, length};
ghost use Rattle.log_text.specs.LogValues.{log_value};
ghost use Rattle.log_thinning.specs.Thinned.{is_load_of, last_load_after, next_load_before, operation_count, thinned, thinned_before, thinned_behind, thinned_list};

use log_text::{Log, LogOperation, LoggedOperation};
use std::alloc::Global;
use tso_ops::OutOfMemory;

/// A log without loads that say no more than others.
#[derive(Debug, Drop)]
pub struct Thinned {
    /// The log that is left.
    pub log: Log,
    /// How many loads were dropped.
    pub dropped: usize,
}

/// The log without each load that has the address and the value of another load of its processor, if that is the last one
/// before it, with only stores to other addresses between, or the next one behind it, with only barriers between. OutOfMemory
/// where an allocation was refused.
pub fn thin(alloc: Global, log: Log) -> Result<Thinned, OutOfMemory>
    ensures log { IfOk result (λ left. log_value left.log ≡ thinned (log_value log)) }
    ensures dropped { IfOk result (λ left. left.dropped + operation_count (log_value left.log) ≡ operation_count (log_value log)) }
{
    let mut lists = Vec::new(alloc);
    let mut dropped: usize = 0;
    for list in &log.lists {
        let left = thin_list(alloc, list)?;
        dropped = add(dropped, list.len() - left.len())?;
        lists.push(left)?;
    }
    Ok(Thinned {
        log: Log {
            order: log.order,
            first: log.first,
            lists,
            left_out: log.left_out,
        },
        dropped,
    })
}

/// The sum of two numbers; OutOfMemory above 64 bits: no memory holds so many operations.
fn add(count: usize, more: usize) -> Result<usize, OutOfMemory>
    ensures { IfOk result (λ sum. sum ≡ count + more) }
{
    count.checked_add(more).ok_or(OutOfMemory)
}

/// A processor's operations without both kinds of loads.
fn thin_list(alloc: Global, list: &[LoggedOperation]) -> Result<Vec<LoggedOperation>, OutOfMemory>
    ensures is { IfOk result (λ left. left.items ≡ thinned_list list.now) }
    ensures fewer { IfOk result (λ left. length left.items ≤ length list.now) }
{
    let left = thin_behind(alloc, list)?;
    thin_before(alloc, &left)
}

/// The operations without loads that repeat the last one.
fn thin_behind(alloc: Global, list: &[LoggedOperation]) -> Result<Vec<LoggedOperation>, OutOfMemory>
    ensures is { IfOk result (λ left. left.items ≡ thinned_behind None list.now) }
    ensures fewer { IfOk result (λ left. length left.items ≤ length list.now) }
{
    let mut left = Vec::new(alloc);
    let mut last = None;
    for logged in list {
        if !is_load_of(logged.operation, last) {
            left.push(*logged)?;
        }
        last = last_load_after(logged.operation, last);
    }
    Ok(left)
}

/// The operations without loads that the next one repeats. They are gone through from the last to the first.
fn thin_before(alloc: Global, list: &[LoggedOperation]) -> Result<Vec<LoggedOperation>, OutOfMemory>
    ensures is { IfOk result (λ left. left.items ≡ thinned_before list.now) }
    ensures fewer { IfOk result (λ left. length left.items ≤ length list.now) }
{
    let mut reversed = Vec::new(alloc);
    let mut next = None;
    for done in 0..list.len() {
        let logged = list[list.len() - 1 - done];
        if !is_load_of(logged.operation, next) {
            reversed.push(logged)?;
        }
        next = next_load_before(logged.operation, next);
    }
    let left = reversed.iter().rev().copied().collect(alloc)?;
    Ok(left)
}

/// Whether an operation is a load of this address and this value.
fn is_load_of(operation: LogOperation, other: Option<(u64, u64)>) -> bool
    ensures { result ≡ is_load_of operation other }
{
    match (operation, other) {
        (LogOperation::Ld { a, r }, Some((address, value))) => address == a && value == r,
        _ => false,
    }
}

/// The address and the value of the last load, after one more operation, while only stores to other addresses follow it.
fn last_load_after(operation: LogOperation, last: Option<(u64, u64)>) -> Option<(u64, u64)>
    ensures { result ≡ last_load_after operation last }
{
    match operation {
        LogOperation::Ld { a, r } => Some((a, r)),
        LogOperation::St { a, .. } => last.filter(|load| load.0 != a),
        LogOperation::Sw { .. } | LogOperation::Mb | LogOperation::Sb => None,
    }
}

/// The address and the value of the next load, before one more operation, while only barriers come before it.
fn next_load_before(operation: LogOperation, next: Option<(u64, u64)>) -> Option<(u64, u64)>
    ensures { result ≡ next_load_before operation next }
{
    match operation {
        LogOperation::Ld { a, r } => Some((a, r)),
        LogOperation::St { .. } | LogOperation::Sw { .. } => None,
        LogOperation::Mb | LogOperation::Sb => next,
    }
}
