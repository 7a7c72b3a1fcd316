//! Worked examples that are violations.

use tso_ops::Outcome::{self, Ld, Mb, St, Sw};

/// A trace that is a violation, its certificate and its report.
#[derive(Clone, Copy)]
pub struct Example {
    /// What each processor did and read.
    pub rows: &'static [&'static [Outcome]],
    /// The text of the trace.
    pub trace: &'static str,
    /// The text of the certificate.
    pub certificate: &'static str,
    /// The report of the trace.
    pub report: &'static str,
}

/// A load of a value that nothing wrote.
pub const UNWRITTEN_LOAD: Example = Example {
    rows: &[&[Ld { a: 1, r: 9 }]],
    trace: "tso trace 1\nproc\nld 1 9\nend\n",
    certificate: "unwritten 1\n",
    report: "TSO REPORT 1\nprocessors 1 events 1 rounds 0\nVIOLATION\nunwritten 1\n",
};

/// Two processors that store and, after a barrier, load what was at the other's address before.
pub const STORE_BUFFERING_WITH_BARRIERS: Example = Example {
    rows: &[
        &[St { a: 1, v: 1 }, Mb, Ld { a: 2, r: 0 }],
        &[St { a: 2, v: 2 }, Mb, Ld { a: 1, r: 0 }],
    ],
    trace: "tso trace 1\nproc\nst 1 1\nmb\nld 2 0\nproc\nst 2 2\nmb\nld 1 0\nend\n",
    certificate: "1 init 1 Init\n2 init 3 Init\n3 1 2 Membar\n4 3 4 Membar\n5 2 3 StorePast 2 init 3\n6 4 1 StorePast 4 init 1\ncycle 1 2 3 4\n",
    report: "TSO REPORT 1\nprocessors 2 events 4 rounds 1\nVIOLATION\n1 init 1 Init\n2 init 3 Init\n3 1 2 Membar\n4 3 4 Membar\n5 2 3 StorePast 2 init 3\n6 4 1 StorePast 4 init 1\ncycle 1 2 3 4\n",
};

/// Two swaps of one address, of which each read the first value.
pub const TWO_SWAPS_BOTH_FIRST: Example = Example {
    rows: &[&[Sw { a: 1, r: 0, v: 1 }], &[Sw { a: 1, r: 0, v: 2 }]],
    trace: "tso trace 1\nproc\nsw 1 0 1\nproc\nsw 1 0 2\nend\n",
    certificate: "1 init 2 Init\n2 init 4 Init\n3 1 4 StorePast 1 init 4\n4 3 2 StorePast 3 init 2\n5 2 4 SwapAfter 1 1 4\n6 4 2 SwapAfter 3 3 2\ncycle 2 4\n",
    report: "TSO REPORT 1\nprocessors 2 events 4 rounds 2\nVIOLATION\n1 init 2 Init\n2 init 4 Init\n3 1 4 StorePast 1 init 4\n4 3 2 StorePast 3 init 2\n5 2 4 SwapAfter 1 1 4\n6 4 2 SwapAfter 3 3 2\ncycle 2 4\n",
};

/// Two processors that store, and two that see the stores in different orders.
pub const INDEPENDENT_READS: Example = Example {
    rows: &[
        &[St { a: 1, v: 1 }],
        &[St { a: 2, v: 2 }],
        &[Ld { a: 1, r: 1 }, Ld { a: 2, r: 0 }],
        &[Ld { a: 2, r: 2 }, Ld { a: 1, r: 0 }],
    ],
    trace: "tso trace 1\nproc\nst 1 1\nproc\nst 2 2\nproc\nld 1 1\nld 2 0\nproc\nld 2 2\nld 1 0\nend\n",
    certificate: "1 init 1 Init\n2 init 2 Init\n3 1 3 Read\n4 2 5 Read\n5 3 4 LoadOp\n6 5 6 LoadOp\n7 4 2 StorePast 4 init 2\n8 6 1 StorePast 6 init 1\ncycle 1 3 4 2 5 6\n",
    report: "TSO REPORT 1\nprocessors 4 events 6 rounds 1\nVIOLATION\n1 init 1 Init\n2 init 2 Init\n3 1 3 Read\n4 2 5 Read\n5 3 4 LoadOp\n6 5 6 LoadOp\n7 4 2 StorePast 4 init 2\n8 6 1 StorePast 6 init 1\ncycle 1 3 4 2 5 6\n",
};
