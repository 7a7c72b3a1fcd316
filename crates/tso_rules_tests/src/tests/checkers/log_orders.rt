//! Memory orders of logs: some that are accepted, each fault, and each axiom where it isn't met.

use log_order_check::check_log_order;
use log_text::read_log;
use order_check::{Axiom, OrderFault};
use std::alloc::Global;
use std::test::Fail;
use traces_for_tests::expect_equal;

const BUFFERS: &str = "0 st 0 1\n0 ld 1 0\n1 st 1 1\n1 ld 0 0\n";

const BUFFERS_MB: &str = "0 st 0 1\n0 mb\n0 ld 1 0\n1 st 1 1\n1 ld 0 0\n";

const MESSAGE: &str = "0 st 0 1\n0 st 1 1\n1 ld 1 1\n1 ld 0 0\n";

const MESSAGE_STBAR: &str = "0 st 0 1\n0 stbar\n0 st 1 1\n1 ld 1 1\n1 ld 0 0\n";

const MESSAGE_PSO: &str = "model pso\n0 st 0 1\n0 st 1 1\n1 ld 1 1\n1 ld 0 0\n";

const MESSAGE_PSO_STBAR: &str = "model pso\n0 st 0 1\n0 stbar\n0 st 1 1\n1 ld 1 1\n1 ld 0 0\n";

const MESSAGE_PSO_MB: &str = "model pso\n0 st 0 1\n0 mb\n0 st 1 1\n1 ld 1 1\n1 ld 0 0\n";

/// Its events are the two of the first swap, a store, and the two of the second swap.
const LOCK: &str = "0 sw 9 0 1\n0 st 9 0\n1 sw 9 0 1\n";

const LOCKED_TWICE: &str = "0 sw 9 0 1\n1 sw 9 0 1\n";

const SWAP_AND_STORE: &str = "0 sw 9 0 1\n1 st 8 1\n";

const REPEATED: &str = "0 st 0 1\n1 st 0 2\n2 st 0 1\n3 ld 0 1\n3 ld 0 2\n3 ld 0 1\n";

const FORWARDED: &str = "0 st 0 1\n0 ld 0 1\n1 st 0 2\n1 ld 0 2\n";

const OWN: &str = "0 st 0 1\n0 st 0 2\n0 st 1 3\n0 ld 0 2\n1 st 0 3\n";

/// The first value is stored again.
const FIRST: &str = "init 0 5\ninit 0 7\n0 st 0 7\n1 ld 0 7\n1 ld 1 0\n";

const LARGE: &str =
    "4095 st 0xffffffffffffffff 18446744073709551615\n7 ld 18446744073709551615 0xffffffffffffffff\n";

/// The store to address 1 and the load from it are no events.
const LEFT_OUT: &str = "0 st 0 1\n0 un 1\n0 st 1 2\n0 ld 0 1\n1 ld 1 9\n";

const SAME_SWAPS: &str = "0 sw 0 1 1\n1 st 0 1\n1 sw 0 1 1\n";

const THREE_STORES: &str = "model pso\n0 st 0 1\n0 stbar\n0 st 1 1\n0 st 2 1\n";

const BARRIERS: &str = "0 st 0 1\n0 mb\n0 st 1 1\n0 ld 2 0\n0 ld 3 0\n";

/// Logs and orders of their models.
static ORDERS: [(&str, &[usize]); 27] = [
    ("", &[]),
    // a load may come before its processor's store, where no barrier stands between them
    (BUFFERS, &[2, 4, 1, 3]),
    (BUFFERS, &[4, 1, 2, 3]),
    (BUFFERS_MB, &[4, 1, 2, 3]),
    (BARRIERS, &[1, 3, 4, 2]),
    // a store may come before an earlier one under PSO, where no STBAR stands between them
    (MESSAGE_PSO, &[2, 3, 4, 1]),
    (MESSAGE_PSO_MB, &[2, 3, 4, 1]),
    (THREE_STORES, &[1, 3, 2]),
    ("model pso\n0 st 0 1\n0 sw 1 0 1\n", &[2, 3, 1]),
    ("model pso\n0 sw 1 0 1\n0 st 0 1\n", &[1, 2, 3]),
    // swaps, one after the other
    (LOCK, &[1, 2, 3, 4, 5]),
    (SWAP_AND_STORE, &[1, 2, 3]),
    (SWAP_AND_STORE, &[3, 1, 2]),
    (SAME_SWAPS, &[3, 4, 5, 1, 2]),
    (SAME_SWAPS, &[3, 1, 2, 4, 5]),
    // values that repeat
    (REPEATED, &[1, 4, 2, 5, 3, 6]),
    (REPEATED, &[3, 4, 2, 5, 1, 6]),
    // a processor sees its own store before memory has it
    (FORWARDED, &[2, 4, 1, 3]),
    (FORWARDED, &[4, 3, 2, 1]),
    (OWN, &[4, 1, 2, 3, 5]),
    (OWN, &[5, 4, 1, 2, 3]),
    (OWN, &[5, 1, 4, 2, 3]),
    // first values
    (FIRST, &[1, 2, 3]),
    (FIRST, &[2, 3, 1]),
    ("0 ld 0 0\n0 st 0 0\n0 ld 0 0\n", &[1, 3, 2]),
    (LARGE, &[2, 1]),
    (LEFT_OUT, &[1, 2]),
];

/// Logs, orders, and the first axiom that isn't met at the first event at which one isn't.
static BROKEN: [(&str, &[usize], Axiom, usize); 36] = [
    ("0 ld 0 0\n0 st 1 1\n", &[2, 1], Axiom::LoadOp, 2),
    ("0 ld 0 0\n0 ld 0 0\n", &[2, 1], Axiom::LoadOp, 2),
    ("model pso\n0 ld 0 0\n0 st 1 1\n", &[2, 1], Axiom::LoadOp, 2),
    (SWAP_AND_STORE, &[2, 1, 3], Axiom::LoadOp, 2),
    // the loads of a processor before any of its later events
    (
        "0 ld 0 0\n0 ld 1 0\n0 st 2 1\n",
        &[1, 3, 2],
        Axiom::LoadOp,
        3,
    ),
    (
        "0 ld 0 0\n0 ld 1 0\n0 ld 2 0\n",
        &[2, 3, 1],
        Axiom::LoadOp,
        2,
    ),
    (MESSAGE, &[4, 1, 2, 3], Axiom::LoadOp, 4),
    // stores in program order
    (MESSAGE, &[2, 3, 4, 1], Axiom::StoreStore, 2),
    (MESSAGE_STBAR, &[2, 3, 4, 1], Axiom::StoreStore, 2),
    ("0 st 0 1\n0 sw 1 0 1\n", &[2, 3, 1], Axiom::StoreStore, 3),
    ("0 sw 1 0 1\n0 st 0 1\n", &[1, 3, 2], Axiom::StoreStore, 3),
    (
        "model pso\n0 st 0 1\n0 st 1 1\n0 st 0 1\n",
        &[2, 3, 1],
        Axiom::StoreStore,
        3,
    ),
    (MESSAGE_PSO_STBAR, &[2, 3, 4, 1], Axiom::Stbar, 2),
    (THREE_STORES, &[3, 1, 2], Axiom::Stbar, 3),
    (
        "model pso\n0 sw 9 0 1\n0 stbar\n0 st 1 1\n",
        &[1, 3, 2],
        Axiom::Stbar,
        3,
    ),
    // loads after a barrier
    (BUFFERS_MB, &[2, 4, 1, 3], Axiom::Membar, 2),
    (BARRIERS, &[3, 4, 1, 2], Axiom::Membar, 3),
    ("0 st 0 1\n0 mb\n0 sw 1 0 1\n", &[2, 3, 1], Axiom::Membar, 2),
    (
        "model pso\n0 st 0 1\n0 mb\n0 ld 1 0\n",
        &[2, 1],
        Axiom::Membar,
        2,
    ),
    // no store between a swap's load and its store, whatever its address
    (SWAP_AND_STORE, &[1, 3, 2], Axiom::Atomicity, 3),
    (LOCKED_TWICE, &[1, 3, 2, 4], Axiom::Atomicity, 2),
    (
        "model pso\n0 sw 1 0 1\n0 st 0 1\n",
        &[1, 3, 2],
        Axiom::Atomicity,
        3,
    ),
    // values
    (LOCK, &[4, 5, 1, 2, 3], Axiom::Value, 1),
    (LOCKED_TWICE, &[1, 2, 3, 4], Axiom::Value, 3),
    (LOCKED_TWICE, &[3, 4, 1, 2], Axiom::Value, 1),
    (BUFFERS, &[1, 2, 3, 4], Axiom::Value, 4),
    (REPEATED, &[1, 4, 3, 2, 5, 6], Axiom::Value, 6),
    (REPEATED, &[4, 1, 2, 5, 3, 6], Axiom::Value, 4),
    (FORWARDED, &[1, 3, 2, 4], Axiom::Value, 2),
    (OWN, &[1, 2, 5, 4, 3], Axiom::Value, 4),
    ("init 0 7\ninit 0 5\n0 ld 0 7\n", &[1], Axiom::Value, 1),
    (LARGE, &[1, 2], Axiom::Value, 1),
    // of several events the first in the list
    (
        "0 ld 0 0\n0 st 1 1\n1 ld 1 5\n",
        &[3, 2, 1],
        Axiom::Value,
        3,
    ),
    (
        "0 ld 0 0\n0 st 1 1\n1 ld 1 5\n",
        &[2, 3, 1],
        Axiom::LoadOp,
        2,
    ),
    // of several axioms the first
    (
        "0 st 0 1\n0 mb\n0 ld 1 0\n0 ld 2 0\n",
        &[3, 2, 1],
        Axiom::LoadOp,
        3,
    ),
    (
        "model pso\n0 st 0 1\n0 stbar\n0 st 0 2\n",
        &[2, 1],
        Axiom::StoreStore,
        2,
    ),
];

/// Logs, and lists in which not each of their events stands once, and nothing else.
static LISTS: [(&str, &[usize], OrderFault); 12] = [
    (BUFFERS, &[], OrderFault::Missing(1)),
    (BUFFERS, &[2, 4, 1], OrderFault::Missing(3)),
    (BUFFERS, &[4, 1], OrderFault::Missing(2)),
    (BUFFERS, &[2, 4, 2, 3], OrderFault::Repeated(3)),
    (BUFFERS, &[2, 4, 1, 3, 3, 2], OrderFault::Repeated(5)),
    (BUFFERS, &[1, 1], OrderFault::Repeated(2)),
    (BUFFERS, &[0], OrderFault::NotAnEvent(1)),
    (BUFFERS, &[2, 4, 1, 3, 5], OrderFault::NotAnEvent(5)),
    (
        BUFFERS,
        &[2, 18_446_744_073_709_551_615],
        OrderFault::NotAnEvent(2),
    ),
    (BUFFERS, &[2, 2, 1, 0, 5], OrderFault::NotAnEvent(4)),
    (LEFT_OUT, &[1, 2, 3], OrderFault::NotAnEvent(3)),
    ("", &[1], OrderFault::NotAnEvent(1)),
];

/// Why the order is refused, if it is; None where the log is none.
fn answer_of(
    alloc: Global,
    text: &str,
    order: &[usize],
) -> Result<Option<Option<OrderFault>>, Fail> {
    let Ok(log) = read_log(alloc, text.as_bytes(), false) else {
        return Ok(None);
    };
    match check_log_order(alloc, &log, order)? {
        Ok(()) => Ok(Some(None)),
        Err(fault) => Ok(Some(Some(fault))),
    }
}

#[test]
fn orders_of_logs_are_accepted(rt: HostRuntime) -> Result<(), Fail> {
    for (number, case) in ORDERS.iter().enumerate() {
        let (text, order) = *case;
        expect_equal(number, answer_of(rt.alloc(), text, order)?, Some(None))?;
    }
    Ok(())
}

#[test]
fn broken_axioms_of_logs_are_named(rt: HostRuntime) -> Result<(), Fail> {
    for (number, case) in BROKEN.iter().enumerate() {
        let (text, order, axiom, event) = *case;
        let fault = OrderFault::Broken { axiom, event };
        let answer = answer_of(rt.alloc(), text, order)?;
        expect_equal(number, answer, Some(Some(fault)))?;
    }
    Ok(())
}

#[test]
fn lists_that_are_no_orders_of_logs(rt: HostRuntime) -> Result<(), Fail> {
    for (number, case) in LISTS.iter().enumerate() {
        let (text, order, fault) = *case;
        let answer = answer_of(rt.alloc(), text, order)?;
        expect_equal(number, answer, Some(Some(fault)))?;
    }
    Ok(())
}
