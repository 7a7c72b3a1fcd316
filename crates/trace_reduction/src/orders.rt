//! The processors of a trace in the order of which the text is the least, with addresses and values named anew.

use crate::logs::{keep_all, log_of};
use crate::permutations::{advance, ascending};
use log_selections::KnownLog;
use log_text::Log;
use std::alloc::Global;
use tso_ops::{OutOfMemory, Trace};
use tso_text::print_trace;

/// How many processors a trace has at most, all orders of which are tried.
const MAX_ORDERED: usize = 6;

/// How many orders so many processors have.
const MAX_ORDERS: usize = 720;

/// A trace with its processors in some order: for each of them which it was before.
#[derive(Drop)]
pub(crate) struct Ordered {
    pub(crate) trace: Trace,
    pub(crate) order: Vec<usize>,
    text: String,
}

impl Ordered {
    /// The trace as it is. OutOfMemory where an allocation was refused.
    pub(crate) fn new(alloc: Global, trace: Trace) -> Result<Ordered, OutOfMemory> {
        Ok(Ordered {
            text: print_trace(alloc, &trace)?,
            order: ascending(alloc, trace.processors())?,
            trace,
        })
    }
}

/// The trace with its processors in the order of which the text is the least; as they are where there are more than 6.
/// OutOfMemory where an allocation was refused.
pub(crate) fn least_order(alloc: Global, trace: Trace) -> Result<Ordered, OutOfMemory> {
    let log = log_of(alloc, &trace)?;
    let mut order = ascending(alloc, trace.processors())?;
    let mut least = Ordered::new(alloc, trace)?;
    if order.len() > MAX_ORDERED {
        return Ok(least);
    }
    for _ in 0..MAX_ORDERS {
        if let Some(other) = put_in_order(alloc, &log, &order)? {
            least = lesser(least, other);
        }
        if !advance(&mut order) {
            break;
        }
    }
    Ok(least)
}

/// Of two traces the one with the lesser text.
fn lesser(trace: Ordered, other: Ordered) -> Ordered {
    if other.text.as_bytes() < trace.text.as_bytes() {
        other
    } else {
        trace
    }
}

/// The processors of a log in this order; None where they are no trace.
fn put_in_order(alloc: Global, log: &Log, order: &[usize]) -> Result<Option<Ordered>, OutOfMemory> {
    let known = KnownLog::new(alloc, in_order(alloc, log, order)?)?;
    let Some(trace) = known.trace_of(alloc, &keep_all(alloc, known.log())?)? else {
        return Ok(None);
    };
    Ok(Some(Ordered {
        text: print_trace(alloc, &trace)?,
        order: Vec::from_slice(alloc, order)?,
        trace,
    }))
}

/// The log with its processors in this order.
fn in_order(alloc: Global, log: &Log, order: &[usize]) -> Result<Log, OutOfMemory> {
    let mut lists = Vec::new(alloc);
    for processor in order {
        if let Some(list) = log.lists.get(*processor) {
            lists.push(Vec::from_slice(alloc, list)?)?;
        }
    }
    Ok(Log {
        order: log.order,
        first: Vec::from_slice(alloc, &log.first)?,
        lists,
        left_out: 0,
    })
}
