//! A trace as a log.

use log_selections::Kept;
use log_text::{Log, LogOperation, LoggedOperation};
use std::alloc::Global;
use tso_ops::{Order, OutOfMemory, Outcome, Part, Trace};

/// The trace as a log, the lines of which are those of the trace's text. OutOfMemory where an allocation was refused.
pub(crate) fn log_of(alloc: Global, trace: &Trace) -> Result<Log, OutOfMemory> {
    let mut lists = Vec::new(alloc);
    let mut line = first_line(trace);
    for p in 0..trace.processors() {
        let list = logged_list(alloc, trace.ops(p), line)?;
        line = line.saturating_add(list.len()).saturating_add(1);
        lists.push(list)?;
    }
    Ok(Log {
        order: trace.order(),
        first: first_values(alloc, trace)?,
        lists,
        left_out: 0,
    })
}

/// The line of the first operation of the first processor, in the trace's text.
fn first_line(trace: &Trace) -> usize {
    let header: usize = match trace.order() {
        Order::Tso => 3,
        Order::Pso => 4,
    };
    let first: &[(u16, u64)] = &trace.setting().first;
    header.saturating_add(first.len())
}

/// The operations of a processor, the first of which stands in this line.
fn logged_list(
    alloc: Global,
    outcomes: &[Outcome],
    line: usize,
) -> Result<Vec<LoggedOperation>, OutOfMemory> {
    let mut list = Vec::new(alloc);
    for (place, outcome) in outcomes.iter().enumerate() {
        list.push(LoggedOperation {
            line: line.saturating_add(place),
            operation: logged(*outcome),
        })?;
    }
    Ok(list)
}

/// The operation as one of a log.
fn logged(outcome: Outcome) -> LogOperation {
    match outcome {
        Outcome::Ld { a, r } => LogOperation::Ld { a: a as u64, r },
        Outcome::St { a, v } => LogOperation::St { a: a as u64, v },
        Outcome::Sw { a, r, v } => LogOperation::Sw { a: a as u64, r, v },
        Outcome::Mb => LogOperation::Mb,
        Outcome::Sb => LogOperation::Sb,
    }
}

/// The first values of the trace.
fn first_values(alloc: Global, trace: &Trace) -> Result<Vec<(u64, u64)>, OutOfMemory> {
    let mut first = Vec::new(alloc);
    for entry in &trace.setting().first {
        first.push((entry.0 as u64, entry.1))?;
    }
    Ok(first)
}

/// All operations of a log, each kept whole. OutOfMemory where an allocation was refused.
pub(crate) fn keep_all(alloc: Global, log: &Log) -> Result<Vec<Vec<Kept>>, OutOfMemory> {
    let mut kept = Vec::new(alloc);
    for list in &log.lists {
        kept.push(keep_list(alloc, list.len())?)?;
    }
    Ok(kept)
}

/// So many operations of a processor, each kept whole.
fn keep_list(alloc: Global, count: usize) -> Result<Vec<Kept>, OutOfMemory> {
    let mut kept = Vec::new(alloc);
    for index in 0..count {
        let part = Part::Whole;
        kept.push(Kept { index, part })?;
    }
    Ok(kept)
}
