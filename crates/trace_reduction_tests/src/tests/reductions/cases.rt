//! Small traces worked out by hand.

use super::{Case, expect_case};
use std::alloc::Global;
use std::sync::Wait;
use std::test::Fail;
use std::thread::Threads;
use trace_reports::Verdict;

/// A trace in which loads of one location go back.
const COHERENCE: &str =
    "tso trace 1\nproc\nst 3 1\nld 3 1\nld 8 0\nproc\nld 3 1\nst 8 2\nld 3 0\nproc\nld 3 1\nend\n";

/// Its small trace.
const COHERENCE_REDUCED: &str = "tso trace 2\nproc\nld 0 1\nld 0 0\nproc\nst 0 1\nend\n";

/// The notes on the operations of this one.
const COHERENCE_NOTES: &str = "line 7 P0 'ld 0 1'\nline 9 P0 'ld 0 0'\nline 3 P1 'st 0 1'\n";

/// Traces whose small traces have several operations.
pub(crate) static SEVERAL: [Case<'static>; 5] = [
    // Store buffering with barriers, between other operations.
    (
        "tso trace 2\ninit 3 9\nproc\nst 7 70\nsw 5 0 50\nst 1 10\nmb\nst 4 40\nld 2 0\nproc\nld 7 70\nproc\nst 2 20\nmb\nmb\nld 3 9\nld 1 0\nend\n",
        Verdict::Violation,
        "tso trace 2\nproc\nst 0 1\nmb\nld 1 0\nproc\nst 1 2\nmb\nld 0 0\nend\n",
        "line 6 P0 'st 0 1'\nline 7 P0 'mb'\nline 9 P0 'ld 1 0'\nline 13 P1 'st 1 2'\nline 14 P1 'mb'\nline 17 P1 'ld 0 0'\n",
    ),
    // Message passing: address 6 has a first value, and the flag is at address 4. The processor that loads stands last here, and
    // first in the small trace. Its last load comes too late for a flag.
    (
        "tso trace 2\ninit 6 5\nproc\nst 6 8\nmb\nst 5 3\nst 4 1\nproc\nst 9 2\nproc\nld 9 2\nld 4 1\nld 6 5\nld 5 3\nend\n",
        Verdict::Violation,
        "tso trace 2\nproc\nld 0 2\nld 1 0\nproc\nst 1 1\nst 0 2\nend\n",
        "line 12 P0 'ld 0 2'\nline 13 P0 'ld 1 0'\nline 4 P1 'st 1 1'\nline 7 P1 'st 0 2'\n",
    ),
    (
        COHERENCE,
        Verdict::Violation,
        COHERENCE_REDUCED,
        COHERENCE_NOTES,
    ),
    // Two swaps that both read the first value.
    (
        "tso trace 2\nmodel pso\nproc\nsw 1 0 4\nst 1 5\nproc\nstbar\nsw 1 0 6\nend\n",
        Verdict::Violation,
        "tso trace 2\nmodel pso\nproc\nsw 0 0 1\nproc\nsw 0 0 2\nend\n",
        "line 4 P0 'sw 0 0 1'\nline 8 P1 'sw 0 0 2'\n",
    ),
    // A swap of which its store is enough, and an STBAR.
    (
        "tso trace 2\nmodel pso\nproc\nst 1 1\nstbar\nsw 2 0 2\nproc\nld 2 2\nld 1 0\nend\n",
        Verdict::Violation,
        "tso trace 2\nmodel pso\nproc\nld 0 2\nld 1 0\nproc\nst 1 1\nstbar\nst 0 2\nend\n",
        "line 8 P0 'ld 0 2'\nline 9 P0 'ld 1 0'\nline 4 P1 'st 1 1'\nline 5 P1 'stbar'\nline 6 P1 'st 0 2'\n",
    ),
];

/// Seven processors that keep their order, though another one has a lesser text.
const SEVEN_PROCESSORS: &str =
    "tso trace 2\nproc\nst 0 1\nmb\nld 1 0\nproc\nst 2 2\nmb\nld 3 0\nproc\nst 1 3\nmb\nld 2 0\nproc\nst 3 4\nmb\nld 4 0\nproc\nst 4 5\nmb\nld 5 0\nproc\nst 5 6\nmb\nld 6 0\nproc\nst 6 7\nmb\nld 0 0\nend\n";

/// Other traces.
static OTHERS: [Case<'static>; 6] = [
    // A load of what nothing wrote, in a trace that has another violation.
    (
        "tso trace 2\nmodel pso\ninit 1 2\nproc\nst 1 3\nld 1 2\nproc\nld 0 0\nmb\nsw 1 4 5\nend\n",
        Verdict::Violation,
        "tso trace 2\nmodel pso\nproc\nld 0 1\nend\n",
        "line 10 P0 'ld 0 1'\n",
    ),
    (
        SEVEN_PROCESSORS,
        Verdict::Violation,
        SEVEN_PROCESSORS,
        "line 3 P0 'st 0 1'\nline 4 P0 'mb'\nline 5 P0 'ld 1 0'\nline 7 P1 'st 2 2'\nline 8 P1 'mb'\nline 9 P1 'ld 3 0'\nline 11 P2 'st 1 3'\nline 12 P2 'mb'\nline 13 P2 'ld 2 0'\nline 15 P3 'st 3 4'\nline 16 P3 'mb'\nline 17 P3 'ld 4 0'\nline 19 P4 'st 4 5'\nline 20 P4 'mb'\nline 21 P4 'ld 5 0'\nline 23 P5 'st 5 6'\nline 24 P5 'mb'\nline 25 P5 'ld 6 0'\nline 27 P6 'st 6 7'\nline 28 P6 'mb'\nline 29 P6 'ld 0 0'\n",
    ),
    // Small traces stay.
    (
        "tso trace 2\nproc\nld 0 2\nld 1 0\nproc\nst 1 1\nst 0 2\nend\n",
        Verdict::Violation,
        "tso trace 2\nproc\nld 0 2\nld 1 0\nproc\nst 1 1\nst 0 2\nend\n",
        "line 3 P0 'ld 0 2'\nline 4 P0 'ld 1 0'\nline 6 P1 'st 1 1'\nline 7 P1 'st 0 2'\n",
    ),
    (
        "tso trace 2\nproc\nld 0 1\nend\n",
        Verdict::Violation,
        "tso trace 2\nproc\nld 0 1\nend\n",
        "line 3 P0 'ld 0 1'\n",
    ),
    // No violation is found.
    (
        "tso trace 1\nproc\nst 0 1\nld 1 0\nproc\nst 1 2\nld 0 0\nend\n",
        Verdict::NoViolation,
        "NO VIOLATION FOUND\n",
        "",
    ),
    // The text is refused.
    (
        "tso trace 1\nproc\nst 0 0\nend\n",
        Verdict::Refused,
        "REFUSED ZeroValue line 3\n",
        "",
    ),
];

fn expect_cases<H: Threads + Wait>(rt: &H, alloc: Global, cases: &[Case<'_>]) -> Result<(), Fail> {
    for case in cases {
        expect_case(rt, alloc, *case)?;
    }
    Ok(())
}

#[test]
fn small_traces(rt: HostRuntime) -> Result<(), Fail> {
    expect_cases(&rt, rt.alloc(), &SEVERAL)?;
    expect_cases(&rt, rt.alloc(), &OTHERS)
}
