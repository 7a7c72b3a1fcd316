//! What is done to a log before it is searched, and what its program puts before what.

use log_text::{Log, LogOperation, read_log};
use log_thinning::{read_idle_swaps, thin};
use program_chains::ProgramOrder;
use std::alloc::Global;
use std::test::Fail;
use traces_for_tests::expect_equal;

/// A log, and the lines of what is left of its operations, barriers with 0 in place of theirs; and how many loads are dropped.
type Thinning = (&'static str, &'static [usize], usize);

static THINNINGS: [Thinning; 5] = [
    // a swap that stores what it read is a barrier and a load, which the next loads repeat
    (
        "0 sw 1 2 2\n0 ld 1 2\n0 ld 1 2\n0 st 2 5\n0 ld 1 2\n0 mb\n0 ld 1 2\n",
        &[0, 1, 4, 0, 7],
        3,
    ),
    // a store to the address stands between
    ("0 ld 1 2\n0 st 1 3\n0 ld 1 2\n", &[1, 2, 3], 0),
    // another load stands between
    ("0 ld 1 2\n0 ld 2 2\n0 ld 1 2\n", &[1, 2, 3], 0),
    // only a barrier stands between: the last load is kept
    ("0 ld 1 2\n0 mb\n0 ld 1 2\n", &[0, 3], 1),
    // under PSO such a swap stays a swap
    ("model pso\n0 sw 1 2 2\n0 ld 1 2\n", &[2, 3], 0),
];

/// What is left of a log's operations, and how many loads are dropped; None where it is no log.
fn thinned(alloc: Global, text: &str) -> Result<Option<(Vec<usize>, usize)>, Fail> {
    let Ok(log) = read_log(alloc, text.as_bytes(), false) else {
        return Ok(None);
    };
    let read = read_idle_swaps(alloc, &log)?;
    let thinned = thin(alloc, read)?;
    Ok(Some((lines_left(alloc, &thinned.log)?, thinned.dropped)))
}

/// The lines of a log's operations, with 0 for those of barriers.
fn lines_left(alloc: Global, log: &Log) -> Result<Vec<usize>, Fail> {
    let mut lines = Vec::new(alloc);
    for list in &log.lists {
        for logged in list {
            let line = match logged.operation {
                LogOperation::Mb | LogOperation::Sb => 0,
                _ => logged.line,
            };
            lines.push(line)?;
        }
    }
    Ok(lines)
}

#[test]
fn logs_are_thinned(rt: HostRuntime) -> Result<(), Fail> {
    for (text, lines, dropped) in &THINNINGS {
        let left = thinned(rt.alloc(), text)?;
        let found = match &left {
            Some((found, count)) => Some((found.as_slice(), *count)),
            None => None,
        };
        expect_equal(*text, found, Some((*lines, *dropped)))?;
    }
    Ok(())
}

/// A log, two numbers of its events, and whether the program puts the first before the second.
static PAIRS: [(&str, usize, usize, bool); 8] = [
    ("0 st 1 1\n0 ld 2 0\n", 1, 2, false),
    ("0 st 1 1\n0 mb\n0 ld 2 0\n", 1, 2, true),
    ("0 ld 1 1\n0 st 2 1\n", 1, 2, true),
    ("0 st 1 1\n0 st 2 1\n", 1, 2, true),
    ("model pso\n0 st 1 1\n0 st 2 1\n", 1, 2, false),
    ("model pso\n0 st 1 1\n0 stbar\n0 st 2 1\n", 1, 2, true),
    // by the load behind the barrier
    (
        "model pso\n0 st 1 1\n0 mb\n0 ld 3 0\n0 st 2 1\n",
        1,
        3,
        true,
    ),
    ("0 ld 1 1\n1 ld 1 1\n", 1, 2, false),
];

/// Whether the program of a log puts one event before another; None where it is no log, or has no such events.
fn is_before(alloc: Global, text: &str, first: usize, second: usize) -> Result<Option<bool>, Fail> {
    let Ok(log) = read_log(alloc, text.as_bytes(), false) else {
        return Ok(None);
    };
    let order = ProgramOrder::of_log(alloc, &log)?;
    let nodes = order.reach.chains().nodes();
    let (Some(x), Some(y)) = (first.checked_sub(1), second.checked_sub(1)) else {
        return Ok(None);
    };
    if x >= nodes || y >= nodes {
        return Ok(None);
    }
    Ok(Some(order.reach.leads(x, y)))
}

#[test]
fn programs_put_events_in_order(rt: HostRuntime) -> Result<(), Fail> {
    for (text, first, second, before) in &PAIRS {
        expect_equal(
            (*text, *first, *second),
            is_before(rt.alloc(), text, *first, *second)?,
            Some(*before),
        )?;
    }
    Ok(())
}
