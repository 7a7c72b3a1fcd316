//! Long certificates, orders and refutations, and the names of the axioms.

use cert_check::{check, check_with_table};
use log_order_check::check_log_order;
use log_text::{Log, LogOperation, LoggedOperation};
use order_check::{Axiom, OrderFault, check_order};
use refutation_check::check_refutation;
use std::alloc::{AllocError, Global};
use std::test::Fail;
use traces_for_tests::Listed::Base;
use traces_for_tests::{cycle_of, expect_equal, step_of, trace_from, trace_of};
use tso_cert::BaseRule::{LoadOp, Read};
use tso_cert::{CertStep, NumList};
use tso_evidence::RefutationLine;
use tso_ops::Outcome::{Ld, St};
use tso_ops::{Order, Outcome};

/// The numbers from 1 to `last`.
fn numbers_to(alloc: Global, last: u64) -> Result<Vec<u64>, AllocError> {
    let mut numbers = Vec::new(alloc);
    for n in 1..=last {
        numbers.push(n)?;
    }
    Ok(numbers)
}

/// A load of what the last of 2,000 events stores, 1,998 other loads, and the store.
fn load_before_its_store(alloc: Global) -> Result<Vec<Outcome>, AllocError> {
    let mut list = [Ld { a: 1, r: 7 }].to_vec(alloc)?;
    for _ in 0..1_998 {
        list.push(Ld { a: 2, r: 0 })?;
    }
    list.push(St { a: 1, v: 7 })?;
    Ok(list)
}

/// The steps from each of 2,000 events to the next, and from the last to the first.
fn long_steps(alloc: Global) -> Result<Vec<CertStep>, AllocError> {
    let mut steps = Vec::new(alloc);
    for n in 1..2_000 {
        steps.push(step_of(alloc, Base(n, n + 1, LoadOp))?)?;
    }
    steps.push(step_of(alloc, Base(2_000, 1, Read))?)?;
    Ok(steps)
}

/// A load reads what the last of 2,000 events of its processor stores: each event comes before the next, and the last
/// before the first.
#[test]
fn two_thousand_steps_hold(rt: HostRuntime) -> Result<(), Fail> {
    let alloc = rt.alloc();
    let list = load_before_its_store(alloc)?;
    let given = trace_of(alloc, Order::Tso, &[&list])?;
    let cycle = numbers_to(alloc, 2_000)?;
    let certificate = cycle_of(alloc, long_steps(alloc)?, &cycle)?;
    expect_equal("2,000 steps", check(&given, &certificate), Ok(()))?;
    let by_table = check_with_table(alloc, &given, &certificate)?;
    expect_equal("2,000 steps by the table", by_table, Ok(()))
}

/// The numbers from `first` to `last`, and then this one.
fn numbers_then(alloc: Global, first: u64, last: u64, then: u64) -> Result<Vec<u64>, AllocError> {
    let mut numbers = Vec::new(alloc);
    for n in first..=last {
        numbers.push(n)?;
    }
    numbers.push(then)?;
    Ok(numbers)
}

/// A store, 128 loads from another address, and a load of its address that read this.
fn long_list(alloc: Global, read: u64) -> Result<Vec<Outcome>, AllocError> {
    let mut list = [St { a: 1, v: 1 }].to_vec(alloc)?;
    for _ in 0..128 {
        list.push(Ld { a: 2, r: 0 })?;
    }
    list.push(Ld { a: 1, r: read })?;
    Ok(list)
}

/// The store comes last in memory, 129 events after it on its processor. The last of these reads it.
#[test]
fn long_lists(rt: HostRuntime) -> Result<(), Fail> {
    let alloc = rt.alloc();
    let last = numbers_then(alloc, 2, 130, 1)?;
    let forwarded = trace_of(alloc, Order::Tso, &[&long_list(alloc, 1)?])?;
    expect_equal("forwarded", check_order(alloc, &forwarded, &last)?, Ok(()))?;
    let missed = trace_of(alloc, Order::Tso, &[&long_list(alloc, 0)?])?;
    let fault = OrderFault::Broken {
        axiom: Axiom::Value,
        event: 130,
    };
    expect_equal("missed", check_order(alloc, &missed, &last)?, Err(fault))?;
    let first = numbers_then(alloc, 1, 129, 130)?;
    expect_equal(
        "in program order",
        check_order(alloc, &forwarded, &first)?,
        Ok(()),
    )
}

/// A thousand stores of other values to this address, and after each a load that read it.
fn stores_and_loads(alloc: Global, a: u16) -> Result<Vec<Outcome>, AllocError> {
    let mut list = Vec::new(alloc);
    for k in 1..1_001u64 {
        let value = a as u64 * 1_000 + k;
        list.push(St { a, v: value })?;
        list.push(Ld { a, r: value })?;
    }
    Ok(list)
}

/// The events of four processors in turn, 2,000 of each, and each load before the store that it reads.
fn loads_first(alloc: Global) -> Result<Vec<u64>, AllocError> {
    let mut order = Vec::new(alloc);
    for k in 0..1_000u64 {
        for p in 0..4u64 {
            let store = p * 2_000 + k * 2 + 1;
            order.push(store + 1)?;
            order.push(store)?;
        }
    }
    Ok(order)
}

/// Each load is forwarded the store before it.
#[test]
fn eight_thousand_events(rt: HostRuntime) -> Result<(), Fail> {
    let alloc = rt.alloc();
    let first = stores_and_loads(alloc, 1)?;
    let second = stores_and_loads(alloc, 2)?;
    let third = stores_and_loads(alloc, 3)?;
    let fourth = stores_and_loads(alloc, 4)?;
    let rows: [&[Outcome]; 4] = [&first, &second, &third, &fourth];
    let trace = trace_from(alloc, &[], &rows)?;
    let order = loads_first(alloc)?;
    expect_equal(8_000, check_order(alloc, &trace, &order)?, Ok(()))
}

/// A thousand stores to an address of a value that repeats, and after each a load that read it.
fn repeated_stores_and_loads(alloc: Global, a: u64) -> Result<Vec<LoggedOperation>, AllocError> {
    let mut list = Vec::new(alloc);
    for k in 0..1_000u64 {
        let value = k % 2;
        for operation in [
            LogOperation::St { a, v: value },
            LogOperation::Ld { a, r: value },
        ] {
            list.push(LoggedOperation { line: 1, operation })?;
        }
    }
    Ok(list)
}

/// Four processors store two values to one address, and each load is forwarded the store before it.
#[test]
fn eight_thousand_events_of_a_log(rt: HostRuntime) -> Result<(), Fail> {
    let alloc = rt.alloc();
    let mut lists = Vec::new(alloc);
    for _ in 0..4 {
        lists.push(repeated_stores_and_loads(alloc, 1)?)?;
    }
    let log = Log {
        order: Order::Tso,
        first: Vec::new(alloc),
        lists,
        left_out: 0,
    };
    let mut order: Vec<usize> = Vec::new(alloc);
    for number in loads_first(alloc)? {
        order.push(number as usize)?;
    }
    expect_equal(8_000, check_log_order(alloc, &log, &order)?, Ok(()))?;
    let shorter = order.get(..7_999).unwrap_or(&[]);
    let less = check_log_order(alloc, &log, shorter)?;
    expect_equal("less", less, Err(OrderFault::Missing(7_999)))
}

/// The names of the axioms, in the order in which they are looked at.
const NAMES: [&str; 6] = [
    "LoadOp",
    "StoreStore",
    "Stbar",
    "Membar",
    "Atomicity",
    "Value",
];

#[test]
fn names_of_axioms(_rt: HostRuntime) -> Result<(), Fail> {
    for (law, name) in Axiom::ALL.iter().zip(NAMES.iter()) {
        expect_equal(*name, law.name(), *name)?;
    }
    Ok(())
}

/// How many cases are open at once.
const DEPTH: u64 = 100_000;

fn cycle_line(alloc: Global) -> Result<RefutationLine, AllocError> {
    Ok(RefutationLine::Cycle(NumList::new([1, 2].to_vec(alloc)?)))
}

/// A load before the store that it reads, and cases in the first parts of others, each of which ends with the cycle.
fn nested_lines(alloc: Global) -> Result<Vec<RefutationLine>, AllocError> {
    let mut lines = Vec::new(alloc);
    lines.push(RefutationLine::Step(step_of(alloc, Base(1, 2, LoadOp))?))?;
    lines.push(RefutationLine::Step(step_of(alloc, Base(2, 1, Read))?))?;
    for _ in 0..DEPTH {
        lines.push(RefutationLine::Case {
            first: 1,
            second: 2,
        })?;
    }
    lines.push(cycle_line(alloc)?)?;
    for _ in 0..DEPTH {
        lines.push(RefutationLine::Else {
            first: 2,
            second: 1,
        })?;
        lines.push(cycle_line(alloc)?)?;
    }
    Ok(lines)
}

#[test]
fn hundred_thousand_open_cases(rt: HostRuntime) -> Result<(), Fail> {
    let alloc = rt.alloc();
    let trace = trace_of(
        alloc,
        Order::Tso,
        &[&[Ld { a: 1, r: 1 }, St { a: 1, v: 1 }]],
    )?;
    let lines = nested_lines(alloc)?;
    expect_equal("nested", check_refutation(alloc, &trace, &lines)?, Ok(()))
}
