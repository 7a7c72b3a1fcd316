//! Small traces are smallest: nothing can be left out of them.

use super::cases::SEVERAL;
use std::alloc::Global;
use std::sync::Wait;
use std::test::Fail;
use std::thread::Threads;
use trace_judging::{ByRules, Question};
use traces_for_tests::expect_equal;
use tso_ops::{OutOfMemory, Outcome, Trace, ValueFault};
use tso_text::read_trace;

/// An operation of a trace: its processor, its place among that one's operations, and the value that it stores.
#[derive(Clone, Copy, Debug)]
struct LeftOut {
    processor: usize,
    place: usize,
    stores: Option<u64>,
}

/// The value that an operation stores.
fn stored(outcome: Outcome) -> Option<u64> {
    match outcome {
        Outcome::St { v, .. } | Outcome::Sw { v, .. } => Some(v),
        Outcome::Ld { .. } | Outcome::Mb | Outcome::Sb => None,
    }
}

/// Whether an operation goes where another is left out: with a store its loads go.
fn goes(processor: usize, place: usize, outcome: Outcome, left_out: LeftOut) -> bool {
    if processor == left_out.processor && place == left_out.place {
        return true;
    }
    match outcome {
        Outcome::Ld { r, .. } => Some(r) == left_out.stores,
        _ => false,
    }
}

/// A processor's operations without one that is left out.
fn list_without(
    alloc: Global,
    trace: &Trace,
    processor: usize,
    left_out: LeftOut,
) -> Result<Vec<Outcome>, OutOfMemory> {
    let mut list = Vec::new(alloc);
    if processor < trace.processors() {
        for (place, outcome) in trace.ops(processor).iter().enumerate() {
            if !goes(processor, place, *outcome, left_out) {
                list.push(*outcome)?;
            }
        }
    }
    Ok(list)
}

/// The trace without an operation that is left out.
fn without(alloc: Global, trace: &Trace, left_out: LeftOut) -> Result<Trace, ValueFault> {
    let mut lists = Vec::new(alloc);
    for processor in 0..trace.processors() {
        lists.push(list_without(alloc, trace, processor, left_out)?)?;
    }
    Trace::with_first(alloc, trace.order(), Vec::new(alloc), lists).map_err(|refused| refused.why)
}

/// The operations of a trace, each to be left out.
fn operations(alloc: Global, trace: &Trace) -> Result<Vec<LeftOut>, OutOfMemory> {
    let mut all = Vec::new(alloc);
    for processor in 0..trace.processors() {
        push_operations(&mut all, trace, processor)?;
    }
    Ok(all)
}

fn push_operations(
    all: &mut Vec<LeftOut>,
    trace: &Trace,
    processor: usize,
) -> Result<(), OutOfMemory> {
    if processor < trace.processors() {
        for (place, outcome) in trace.ops(processor).iter().enumerate() {
            all.push(LeftOut {
                processor,
                place,
                stores: stored(*outcome),
            })?;
        }
    }
    Ok(())
}

/// Whether the trace without an operation is a violation.
fn is_violation_without<H: Threads + Wait>(
    rt: &H,
    alloc: Global,
    trace: &Trace,
    left_out: LeftOut,
) -> Result<bool, Fail> {
    let fewer = without(alloc, trace, left_out)?;
    let finding = ByRules { workers: 1 }.find(rt, alloc, &fewer)?;
    Ok(finding.certificate.is_some())
}

/// Judges the trace of a text without each of its operations: it is no violation.
fn expect_smallest<H: Threads + Wait>(rt: &H, alloc: Global, text: &str) -> Result<(), Fail> {
    let trace = read_trace(alloc, text.as_bytes())?;
    for left_out in &operations(alloc, &trace)? {
        let found = is_violation_without(rt, alloc, &trace, *left_out)?;
        expect_equal(*left_out, found, false)?;
    }
    Ok(())
}

#[test]
fn nothing_can_be_left_out(rt: HostRuntime) -> Result<(), Fail> {
    for (_, _, small, _) in &SEVERAL {
        expect_smallest(&rt, rt.alloc(), small)?;
    }
    Ok(())
}
