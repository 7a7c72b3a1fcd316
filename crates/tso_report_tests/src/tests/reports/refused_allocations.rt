//! Allocations refused in turn: `rt try --test --fail-alloc N` refuses the Nth of each test.
//!
//! The call that meets it answers OutOfMemory, or NoThread where the allocation was that of a thread's start, and writes nothing, and the next call writes the ordinary report.

use super::expect_bytes;
use super::readers::HOLDS;
use std::alloc::Global;
use std::process::Abort;
use std::sync::Wait;
use std::thread::Threads;
use traces_for_tests::{
    Example, INDEPENDENT_READS, STORE_BUFFERING_WITH_BARRIERS, TWO_SWAPS_BOTH_FIRST, UNWRITTEN_LOAD,
};
use tso_report::{Fault, Verdict, check_texts, judge};

/// The room that a report gets.
const ROOM: usize = 256;

/// A trace, its certificate where that is checked, and on how many workers the trace is judged else.
type Input<'a> = (&'a str, Option<&'a str>, usize);

/// Judges a trace, or checks its certificate, and writes the report into these bytes; how much of the room is left.
fn written_into<H: Threads + Wait + Sync>(
    rt: &H,
    alloc: Global,
    (trace, certificate, workers): Input<'_>,
    bytes: &mut [u8; ROOM],
) -> (Result<Verdict, Fault>, usize) {
    let mut writer = bytes.as_mut_slice();
    let mut trace = trace.as_bytes();
    let said = match certificate {
        Some(text) => check_texts(alloc, &mut trace, &mut text.as_bytes(), &mut writer),
        None => judge(rt, alloc, &mut trace, &mut writer, workers.clamp(1, 64)),
    };
    (said, writer.len())
}

/// Compares what an input comes to, once more where an allocation was refused.
fn expect_written<H: Threads + Wait + Sync + Abort>(
    rt: &H,
    alloc: Global,
    input: Input<'_>,
    (verdict, report): (Verdict, &str),
) {
    let mut bytes = [0u8; ROOM];
    let (mut said, mut left) = written_into(rt, alloc, input, &mut bytes);
    // no thread is started to check a certificate
    let no_thread = said == Err(Fault::NoThread) && input.1.is_none();
    if said == Err(Fault::OutOfMemory) || no_thread {
        assert!(rt; left == ROOM);
        (said, left) = written_into(rt, alloc, input, &mut bytes);
    }
    assert!(rt; said == Ok(verdict));
    let written = ROOM.saturating_sub(left);
    expect_bytes(rt, report, &bytes[..written], report.as_bytes());
}

/// Violations, and the number of workers.
const VIOLATIONS: [(Example, usize); 3] = [
    (UNWRITTEN_LOAD, 1),
    (STORE_BUFFERING_WITH_BARRIERS, 1),
    (TWO_SWAPS_BOTH_FIRST, 2),
];

#[test]
fn refused_allocations_of_violations(rt: HostRuntime) {
    for (example, workers) in VIOLATIONS {
        let input = (example.trace, None, workers);
        let expected = (Verdict::Violation, example.report);
        expect_written(&rt, rt.alloc(), input, expected);
    }
}

/// Other traces, the verdict and the report.
const OTHERS: [(&str, Verdict, &str); 2] = [
    (
        "tso trace 1\nproc\nst 1 1\nld 1 1\nend\n",
        Verdict::NoViolation,
        "TSO REPORT 1\nprocessors 1 events 2 rounds 0\nNO VIOLATION FOUND\n",
    ),
    (
        "tso trace 1\nproc\nld 01 0\nend\n",
        Verdict::Refused,
        "REFUSED BadNumber line 3\n",
    ),
];

#[test]
fn refused_allocations_of_other_reports(rt: HostRuntime) {
    for (trace, verdict, report) in OTHERS {
        let input = (trace, None, 1);
        expect_written(&rt, rt.alloc(), input, (verdict, report));
    }
    let example = INDEPENDENT_READS;
    let input = (example.trace, Some(example.certificate), 1);
    expect_written(&rt, rt.alloc(), input, (Verdict::Violation, HOLDS));
}
