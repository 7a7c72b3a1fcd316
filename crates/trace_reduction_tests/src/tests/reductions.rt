//! Traces that are reduced and decided, and operations of logs that are left out.

mod cases;
mod chains;
mod deciding;
mod logs;
mod parts;
mod searching;

use std::alloc::Global;
use std::sync::Wait;
use std::test::Fail;
use std::thread::Threads;
use trace_reduction::reduce_trace;
use trace_reports::Verdict;
use traces_for_tests::expect_equal;

/// The text of a trace; what is said of it, and what is written to the output and to the errors.
type Case<'a> = (&'a str, Verdict, &'a str, &'a str);

/// Compares what is said of the trace of a text, and what is written of it.
fn expect_case<H: Threads + Wait>(
    rt: &H,
    alloc: Global,
    (text, verdict, small, notes): Case<'_>,
) -> Result<(), Fail> {
    let mut written = Vec::new(alloc);
    let mut errors = Vec::new(alloc);
    let mut reader = text.as_bytes();
    let said = reduce_trace(rt, alloc, &mut reader, &mut written, &mut errors);
    expect_equal(text, said, Ok(verdict))?;
    expect_equal(text, written.as_slice(), small.as_bytes())?;
    expect_equal(text, errors.as_slice(), notes.as_bytes())
}
