//! What a meter hears of a log.

use super::LINES;
use super::notes::stores;
use log_reports::{AsLogLines, LogReporting, report_log};
use progress_meters::{Meter, TotalMeter};
use std::cell::Cell;
use std::process::Abort;
use std::sync::Wait;
use std::test::Fail;
use std::thread::Threads;
use trace_reports::Answer;

/// Counts the operations of which the meter of a log hears.
#[derive(Drop)]
struct OperationCount {
    expected: Cell<u64>,
    passed: Cell<u64>,
}

impl Meter for OperationCount {
    fn advance(&self, count: u64) {
        self.passed.set(self.passed.get().saturating_add(count));
    }
}

impl TotalMeter for OperationCount {
    fn expect_total(&self, count: u64) {
        self.expected.set(count);
    }
}

/// Compares the verdict on a log, how many operations are expected, and how many are passed, with this number.
fn expect_passed<H: Threads + Wait + AllocGlobal + Abort>(
    rt: &H,
    log: &str,
    verdict: Answer,
    operations: u64,
) {
    let mut written = Vec::new(rt.alloc());
    let mut errors = Vec::new(rt.alloc());
    let mut reader = log.as_bytes();
    let meter = OperationCount {
        expected: Cell::new(0),
        passed: Cell::new(0),
    };
    let reporting = LogReporting {
        options: LINES,
        rendering: &AsLogLines,
    };
    let said = report_log(
        rt,
        &reporting,
        &meter,
        &mut reader,
        &mut written,
        &mut errors,
    );
    assert!(rt; said == Ok(verdict), "{log}");
    assert!(rt; meter.expected.get() == operations, "{log}");
    assert!(rt; meter.passed.get() == operations, "{log}");
}

/// Logs with their verdicts, and how many operations each has.
static LOGS: [(&str, Answer, u64); 10] = [
    // loads that say nothing new, of which the search looks at two
    (
        "0 st 1 1\n0 ld 1 1\n0 ld 1 1\n1 ld 1 1\n1 ld 1 1\n1 ld 1 1\n",
        Answer::Clear,
        6,
    ),
    // stores that nobody reads, and barriers
    (
        "0 st 1 1\n0 mb\n0 st 2 1\n0 stbar\n1 st 1 2\n1 ld 1 2\n",
        Answer::Clear,
        6,
    ),
    // barriers alone
    ("0 mb\n1 mb\n", Answer::Undecided, 2),
    // a load with two possible sources: they are passed in both searches
    ("0 st 1 5\n1 st 1 5\n2 ld 1 5\n2 ld 2 0\n", Answer::Clear, 8),
    // swaps, one of which read what several stored
    (
        "0 sw 1 0 1\n1 sw 1 1 2\n2 sw 2 0 3\n3 st 2 3\n4 sw 2 3 4\n",
        Answer::Clear,
        10,
    ),
    // a swap that changes nothing counts as a barrier and a load in the second search
    ("0 st 1 5\n1 st 1 5\n2 sw 1 5 5\n", Answer::Undecided, 7),
    // a load that only repeats the one before is passed in the first search alone
    (
        "0 st 1 5\n1 st 1 5\n2 ld 1 5\n2 ld 1 5\n",
        Answer::Undecided,
        7,
    ),
    // a violation, whose loads are taken back
    (
        "0 st 1 1\n0 st 2 2\n1 ld 3 0\n1 ld 2 2\n1 ld 1 0\n2 ld 1 1\n",
        Answer::Violation,
        6,
    ),
    // two swaps that read one first value
    ("0 sw 1 0 1\n1 sw 1 0 2\n2 ld 1 2\n", Answer::Violation, 3),
    // an operation that a line leaves out
    ("0 st 1 1\n1 un 1\n0 st 2 1\n1 ld 2 1\n", Answer::Clear, 2),
];

/// Each operation of a log is passed once, also where its addresses are searched in parts.
#[test]
fn operations_are_passed_once(rt: HostRuntime) -> Result<(), Fail> {
    for (log, verdict, operations) in &LOGS {
        expect_passed(&rt, *log, *verdict, *operations);
    }
    let log = stores(rt.alloc(), 200)?;
    expect_passed(&rt, &log, Answer::Clear, 800);
    Ok(())
}
