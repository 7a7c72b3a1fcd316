//! The counts of two small traces, worked out by hand.

use super::counted;
use chain_rules::RoundCount;
use std::alloc::Global;
use std::test::Fail;
use traces_for_tests::{STORE_BUFFERING, expect_equal, trace_of};
use tso_ops::{Order, Outcome};

/// The first round adds an edge from each load to the other swap's store. Both loads lead to more then, so that the second
/// round looks at their rows and at those of the stores of their swaps, and closes a cycle.
const OF_TWO_SWAPS: RoundCount = RoundCount {
    rounds: 2,
    rows: 4 + 4,
    is_cyclic: true,
};

/// The first round adds an edge from each load to the other processor's store. Both loads lead to more then, so that their
/// rows are looked at again, and nothing is added.
const OF_STORE_BUFFERING: RoundCount = RoundCount {
    rounds: 1,
    rows: 4 + 2,
    is_cyclic: false,
};

/// What processors did, and the counts.
static COUNTS: [(&[&[Outcome]], RoundCount); 2] = [
    (
        &[
            &[Outcome::Sw { a: 1, r: 0, v: 1 }],
            &[Outcome::Sw { a: 1, r: 0, v: 2 }],
        ],
        OF_TWO_SWAPS,
    ),
    (&STORE_BUFFERING, OF_STORE_BUFFERING),
];

/// Compares the counts of a trace, which has no unwritten load.
fn expect_counts(alloc: Global, rows: &[&[Outcome]], wanted: RoundCount) -> Result<(), Fail> {
    let trace = trace_of(alloc, Order::Tso, rows)?;
    let found = counted(alloc, &trace)?;
    expect_equal(rows, found, Some(wanted))
}

#[test]
fn counts_of_small_traces(rt: HostRuntime) -> Result<(), Fail> {
    for (rows, wanted) in &COUNTS {
        expect_counts(rt.alloc(), rows, *wanted)?;
    }
    Ok(())
}
