//! Allocations refused in turn: `rt try --test --fail-alloc N` refuses the Nth of each test.
//!
//! The check that meets it answers OutOfMemory; the next check gives the ordinary answer.

use log_order_check::check_log_order;
use log_text::{Log, read_log};
use order_check::{OrderFault, check_order};
use refutation_check::check_refutation;
use std::alloc::{AllocError, Global};
use std::test::Fail;
use traces_for_tests::{expect_equal, store_buffering};
use tso_evidence::{Evidence, EvidenceTextFault, read_evidence};
use tso_ops::{OutOfMemory, Trace, ValueFault};
use tso_text::read_trace;

const TRACE: &str =
    "tso trace 1\nmodel pso\nproc\nst 1 3\nst 2 5\nst 0 1\nproc\nst 2 6\nst 0 2\nst 1 4\nproc\nld 0 1\nld 1 4\nproc\nld 0 2\nld 1 3\nproc\nld 0 1\nld 1 3\nproc\nld 0 2\nld 1 4\nproc\nld 1 3\nld 2 6\nproc\nld 1 4\nld 2 6\nproc\nld 1 4\nld 2 5\nproc\nld 1 3\nld 2 5\nproc\nld 2 6\nld 0 1\nproc\nld 2 5\nld 0 1\nproc\nld 2 6\nld 0 2\nproc\nld 2 5\nld 0 2\nend\n";

const REFUTATION: &str =
    "1 1 15 Read\n2 1 21 Read\n3 2 25 Read\n4 2 29 Read\n5 3 7 Read\n6 3 11 Read\n7 4 23 Read\n8 4 27 Read\n9 5 9 Read\n10 5 13 Read\n11 6 17 Read\n12 6 19 Read\n13 7 8 LoadOp\n14 9 10 LoadOp\n15 11 12 LoadOp\n16 13 14 LoadOp\n17 15 16 LoadOp\n18 17 18 LoadOp\n19 19 20 LoadOp\n20 21 22 LoadOp\n21 23 24 LoadOp\n22 25 26 LoadOp\n23 27 28 LoadOp\n24 29 30 LoadOp\n25 6 1 Case\n26 8 1 StorePast 8 6 1\n27 14 1 StorePast 14 6 1\n28 5 3 Case\n29 28 3 StorePast 28 5 3\n30 30 3 StorePast 30 5 3\n31 4 2 LoadPast 22 4 27 28 3 7 8 1 21 22\n32 16 2 StorePast 16 4 2\ncycle 2 29 30 3 7 8 1 15 16\n33 3 5 Else\n34 24 5 StorePast 24 3 5\n35 26 5 StorePast 26 3 5\n36 4 2 LoadPast 22 4 23 24 5 13 14 1 21 22\n37 16 2 StorePast 16 4 2\ncycle 2 25 26 5 13 14 1 15 16\n38 1 6 Else\n39 10 6 StorePast 10 1 6\n40 12 6 StorePast 12 1 6\n41 4 2 Case\n42 18 2 StorePast 18 4 2\n43 3 5 LoadPast 30 3 11 12 6 17 18 2 29 30\n44 26 5 StorePast 26 3 5\ncycle 5 9 10 6 17 18 2 25 26\n45 2 4 Else\n46 20 4 StorePast 20 2 4\n47 3 5 LoadPast 28 3 11 12 6 19 20 4 27 28\n48 24 5 StorePast 24 3 5\ncycle 5 9 10 6 19 20 4 23 24\n";

/// The trace, read once more where an allocation was refused.
fn made_trace(alloc: Global) -> Result<Trace, tso_text::TextFault> {
    match read_trace(alloc, TRACE.as_bytes()) {
        Ok(trace) => Ok(trace),
        Err(_) => read_trace(alloc, TRACE.as_bytes()),
    }
}

/// The refutation, read once more where an allocation was refused.
fn made_refutation(alloc: Global) -> Result<Evidence, EvidenceTextFault> {
    match read_evidence(alloc, REFUTATION.as_bytes()) {
        Ok(evidence) => Ok(evidence),
        Err(_) => read_evidence(alloc, REFUTATION.as_bytes()),
    }
}

#[test]
fn refused_allocations_of_a_check(rt: HostRuntime) -> Result<(), Fail> {
    let alloc = rt.alloc();
    let trace = made_trace(alloc)?;
    let Evidence::Refutation(lines) = made_refutation(alloc)? else {
        return Err(Fail::from("no refutation"));
    };
    let said = match check_refutation(alloc, &trace, lines.items()) {
        Ok(said) => said,
        Err(AllocError) => check_refutation(alloc, &trace, lines.items())?,
    };
    expect_equal("said", said, Ok(()))
}

/// What the check says of the order of the example, or that memory ran out.
fn said_of_example(alloc: Global) -> Result<Result<(), OrderFault>, ValueFault> {
    let trace = store_buffering(alloc)?;
    Ok(check_order(alloc, &trace, &[4, 2, 3, 1])?)
}

/// Where an allocation is refused, the order isn't checked; the next call checks it.
#[test]
fn refused_allocations_of_a_check_of_an_order(rt: HostRuntime) -> Result<(), Fail> {
    let mut said = said_of_example(rt.alloc());
    if said == Err(ValueFault::OutOfMemory) {
        said = said_of_example(rt.alloc());
    }
    expect_equal("order_of_store_buffering", said, Ok(Ok(())))
}

const LOG: &str =
    "model pso\ninit 7 5\n0 st 0 1\n0 stbar\n0 st 7 1\n0 mb\n0 sw 9 0 1\n1 ld 7 1\n1 ld 0 1\n1 st 7 1\n";

/// The log, read once more where an allocation was refused.
fn made_log(alloc: Global) -> Result<Log, tso_text::TextFault> {
    match read_log(alloc, LOG.as_bytes(), false) {
        Ok(log) => Ok(log),
        Err(_) => read_log(alloc, LOG.as_bytes(), false),
    }
}

/// Where an allocation is refused, the order of the log isn't checked; the next call checks it.
#[test]
fn refused_allocations_of_a_check_of_an_order_of_a_log(rt: HostRuntime) -> Result<(), Fail> {
    let alloc = rt.alloc();
    let log = made_log(alloc)?;
    let order = [1, 2, 3, 4, 5, 6, 7];
    let said = match check_log_order(alloc, &log, &order) {
        Ok(said) => said,
        Err(OutOfMemory) => check_log_order(alloc, &log, &order)?,
    };
    expect_equal("said", said, Ok(()))
}
