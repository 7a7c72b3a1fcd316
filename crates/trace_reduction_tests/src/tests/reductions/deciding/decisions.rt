//! Decisions.

use super::{decided, expect_decided, question};
use evidence_for_tests::{BUFFERING, THIRTY_EVENTS, TWELVE_EVENTS};
use std::alloc::Global;
use std::sync::Wait;
use std::test::Fail;
use std::thread::Threads;
use trace_reports::Answer;
use traces_for_tests::expect_equal;

/// Traces, and what is to be said of them: by the axioms, or by the worked example that each is.
static CASES: [(&str, Answer); 10] = [
    ("tso trace 1\nend\n", Answer::Clear),
    (BUFFERING, Answer::Clear),
    (
        "tso trace 1\nproc\nst 1 1\nmb\nld 2 0\nproc\nst 2 2\nmb\nld 1 0\nend\n",
        Answer::Violation,
    ),
    // A processor sees its own store before memory has it.
    (
        "tso trace 1\nproc\nst 1 1\nld 1 1\nld 2 0\nproc\nst 2 2\nld 2 2\nld 1 0\nend\n",
        Answer::Clear,
    ),
    (
        "tso trace 1\nproc\nst 1 1\nst 2 2\nproc\nld 2 2\nld 1 0\nend\n",
        Answer::Violation,
    ),
    (
        "tso trace 1\nmodel pso\nproc\nst 1 1\nst 2 2\nproc\nld 2 2\nld 1 0\nend\n",
        Answer::Clear,
    ),
    ("tso trace 1\nproc\nld 1 5\nend\n", Answer::Violation),
    (
        "tso trace 1\nproc\nsw 1 0 1\nproc\nsw 1 1 2\nend\n",
        Answer::Clear,
    ),
    (TWELVE_EVENTS, Answer::Violation),
    (THIRTY_EVENTS, Answer::Violation),
];

#[test]
fn traces_are_decided(rt: HostRuntime) -> Result<(), Fail> {
    for case in &CASES {
        expect_decided(&rt, rt.alloc(), 1, *case)?;
    }
    Ok(())
}

#[test]
fn workers_decide_alike(rt: HostRuntime) -> Result<(), Fail> {
    expect_decided(&rt, rt.alloc(), 3, (TWELVE_EVENTS, Answer::Violation))?;
    expect_decided(&rt, rt.alloc(), 2, (BUFFERING, Answer::Clear))
}

/// Traces and how many steps the search does, and what is answered and written.
static TEXTS: [((&str, u64), (Answer, &str)); 3] = [
    (
        (TWELVE_EVENTS, 0),
        (
            Answer::Undecided,
            "TSO DECISION 1\nprocessors 4 events 12\nUNDECIDED 0\n",
        ),
    ),
    (
        (TWELVE_EVENTS, 1),
        (
            Answer::Undecided,
            "TSO DECISION 1\nprocessors 4 events 12\nUNDECIDED 1\n",
        ),
    ),
    (
        ("tso trace 1\nproc\nld 1\nend\n", 100),
        (Answer::Refused, "REFUSED BadLine line 3\n"),
    ),
];

/// Compares what is answered and written where the search does so many steps.
fn expect_text<H: Threads + Wait>(
    rt: &H,
    alloc: Global,
    (trace, effort): (&str, u64),
    (answer, text): (Answer, &str),
) -> Result<(), Fail> {
    let mut written = Vec::new(alloc);
    let mut reader = trace.as_bytes();
    let said = decided(rt, alloc, &mut reader, &mut written, question(1, effort));
    expect_equal(effort, said, Ok(answer))?;
    expect_equal(effort, written.as_slice(), text.as_bytes())
}

/// The effort is how many steps the search does: a refutation of the twelve events takes two, and the step back to the first.
#[test]
fn effort_ends(rt: HostRuntime) -> Result<(), Fail> {
    for (trace, said) in &TEXTS {
        expect_text(&rt, rt.alloc(), *trace, *said)?;
    }
    Ok(())
}
