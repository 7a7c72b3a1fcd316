//! A trace that is made by value: its report is the same on each number of workers.

use super::expect_bytes;
use std::alloc::Global;
use std::process::Abort;
use std::sync::Wait;
use std::test::Fail;
use std::thread::Threads;
use traces_for_tests::{STORE_BUFFERING_WITH_BARRIERS, trace_of};
use tso_ops::{Order, Trace};
use tso_report::{AsReport, ByRules, Verdict, answer_trace};

/// Compares the report of a trace by so many workers, from 1 to 64.
fn expect_report<H: Threads + Wait + Abort>(
    rt: &H,
    alloc: Global,
    trace: &Trace,
    workers: usize,
    (verdict, text): (Verdict, &str),
) -> Result<(), Fail> {
    let question = ByRules {
        workers: workers.clamp(1, 64),
    };
    let report = answer_trace(rt, alloc, trace, &question, &AsReport)?;
    assert_eq!(rt; report.verdict, verdict, "{workers}");
    expect_bytes(rt, text, report.text.as_bytes(), text.as_bytes());
    Ok(())
}

#[test]
fn violation(rt: HostRuntime) -> Result<(), Fail> {
    let example = STORE_BUFFERING_WITH_BARRIERS;
    let trace = trace_of(rt.alloc(), Order::Tso, example.rows)?;
    let expected = (Verdict::Violation, example.report);
    for workers in [1, 2, 7, 64usize] {
        expect_report(&rt, rt.alloc(), &trace, workers, expected)?;
    }
    Ok(())
}
