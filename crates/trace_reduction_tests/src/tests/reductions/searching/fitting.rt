//! Operations past the limits of traces.

use super::judges::Needing;
use super::known_log;
use super::logs::all_known;
use log_search::{fit_trace, is_within_limits};
use log_selections::{Kept, KnownLog};
use std::alloc::{AllocError, Global};
use std::fmt::Write;
use std::test::Fail;
use traces_for_tests::expect_equal;

/// A name, how many processors store and to how many addresses each, the operations that the judge needs, and how many are left of
/// all, or 0 where it accuses none that fit.
type Case = (&'static str, (u64, u64), &'static [(usize, usize)], usize);

/// Each processor stores to addresses of its own, so there is an operation for each address.
static CASES: [Case; 6] = [
    (
        "the first of 17 processors isn't needed",
        (17, 2),
        &[(16, 0)],
        32,
    ),
    (
        "only the last isn't",
        (17, 1),
        &[
            (0, 0),
            (1, 0),
            (2, 0),
            (3, 0),
            (4, 0),
            (5, 0),
            (6, 0),
            (7, 0),
            (8, 0),
            (9, 0),
            (10, 0),
            (11, 0),
            (12, 0),
            (13, 0),
            (14, 0),
            (15, 0),
        ],
        16,
    ),
    ("all of two are", (2, 129), &[(0, 0), (1, 128)], 256),
    ("one of 257 addresses isn't", (1, 257), &[(0, 255)], 256),
    (
        "of 20 processors four that aren't stand together",
        (20, 1),
        &[(3, 0), (8, 0)],
        16,
    ),
    (
        "of 20 processors no four do",
        (20, 1),
        &[(0, 0), (4, 0), (8, 0), (12, 0), (16, 0)],
        0,
    ),
];

/// A log in which each of so many processors stores to so many addresses.
fn stores(alloc: Global, (processors, addresses): (u64, u64)) -> Result<String, AllocError> {
    let mut text = String::new(alloc);
    for number in 0..processors.saturating_mul(addresses) {
        let processor = number.checked_div(addresses).unwrap_or(0);
        write!(text, "{processor} st {number} 1\n")?;
    }
    Ok(text)
}

/// How many operations there are.
fn count(kept: &[Vec<Kept>]) -> usize {
    let mut count: usize = 0;
    for list in kept {
        count = count.saturating_add(list.len());
    }
    count
}

/// Leaves out operations, so that a trace can have the others: how many are left, or 0 where the judge accuses none that fit.
fn count_fitting(
    alloc: Global,
    known: &KnownLog,
    kept: &[Vec<Kept>],
    needed: &'static [(usize, usize)],
) -> Result<usize, Fail> {
    let mut judge = Needing { needed, asked: 0 };
    let Some(fewer) = fit_trace(alloc, known, kept, &mut judge)? else {
        return Ok(0);
    };
    expect_equal(needed, is_within_limits(alloc, known, &fewer)?, true)?;
    Ok(count(&fewer))
}

fn expect_fitting(alloc: Global, case: &Case) -> Result<(), Fail> {
    let (name, size, needed, wanted) = *case;
    let known = known_log(alloc, stores(alloc, size)?.as_str())?;
    let kept = all_known(alloc, &known)?;
    expect_equal(name, is_within_limits(alloc, &known, &kept)?, false)?;
    let left = count_fitting(alloc, &known, &kept, needed)?;
    expect_equal(name, left, wanted)
}

#[test]
fn operations_past_the_limits(rt: HostRuntime) -> Result<(), Fail> {
    for case in &CASES {
        expect_fitting(rt.alloc(), case)?;
    }
    Ok(())
}
