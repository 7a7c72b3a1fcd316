//! Operations that are left out while a judge accuses the others.

use super::judges::{Conditional, Needing};
use super::logs::all_known;
use super::{known_log, push_kept};
use log_search::{Judge, reduce};
use std::alloc::Global;
use std::test::Fail;
use traces_for_tests::expect_equal;

/// Two stores, a barrier and loads of each of two processors, and a swap.
const TEXT: &str =
    "0 st 1 1\n0 mb\n0 st 2 2\n0 ld 3 3\n1 st 3 3\n1 mb\n1 ld 1 1\n1 ld 2 2\n1 sw 1 1 4\n";

/// Names of cases, the operations that the judge needs, and what is left.
static CASES: [(&str, &[(usize, usize)], &str); 5] = [
    ("nothing is needed", &[], "\n"),
    ("a store", &[(0, 2)], "0.2 \n"),
    ("a load, which needs its source", &[(1, 2)], "0.0 1.2 \n"),
    ("a barrier and a store", &[(0, 1), (1, 0)], "0.1 1.0 \n"),
    ("a swap, of which the store is enough", &[(1, 4)], "1.4s \n"),
];

/// Compares what is left of the log while a judge accuses it.
fn expect_reduced<J: Judge>(
    alloc: Global,
    judge: &mut J,
    name: &str,
    wanted: &str,
) -> Result<(), Fail> {
    let known = known_log(alloc, TEXT)?;
    let reduced = reduce(alloc, &known, all_known(alloc, &known)?, judge)?;
    let mut line = String::new(alloc);
    push_kept(&mut line, &reduced)?;
    expect_equal(name, line.as_str(), wanted)
}

#[test]
fn reduced_operations(rt: HostRuntime) -> Result<(), Fail> {
    for (name, needed, wanted) in &CASES {
        let mut judge = Needing {
            needed: *needed,
            asked: 0,
        };
        expect_reduced(rt.alloc(), &mut judge, name, wanted)?;
        expect_equal(*name, judge.asked < 60, true)?;
    }
    Ok(())
}

/// Names of cases, the operations of a `Conditional`, and what is left.
static CONDITIONAL: [(&str, [(usize, usize); 3], &str); 3] = [
    (
        "a store that is needed as long as a later one is there",
        [(1, 0), (0, 0), (0, 2)],
        "1.0 \n",
    ),
    (
        "a barrier that is needed as long as a later store is there",
        [(0, 0), (0, 1), (1, 0)],
        "0.0 \n",
    ),
    (
        "a store that is needed as long as a barrier is there",
        [(0, 0), (0, 2), (1, 1)],
        "0.0 \n",
    ),
];

#[test]
fn operations_that_others_need(rt: HostRuntime) -> Result<(), Fail> {
    for (name, operations, wanted) in &CONDITIONAL {
        let mut judge = Conditional {
            operations: *operations,
        };
        expect_reduced(rt.alloc(), &mut judge, name, wanted)?;
    }
    Ok(())
}
