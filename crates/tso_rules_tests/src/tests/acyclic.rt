//! Which traces are shown to have no derived cycle.

use super::counted;
use acyclic_traces::{MAX_EVENTS, is_shown_acyclic};
use std::alloc::Global;
use std::test::Fail;
use traces_for_tests::{
    DrawingMachine, Drawn, UNDER_PSO, UNDER_PSO_WITH_FIRST_VALUES, UNDER_TSO, WITH_FIRST_VALUES,
    drawn_trace, expect_equal,
};
use tso_ops::{Order, OutOfMemory, Trace};

/// Whether the rounds of a trace end with a cycle; None where a load is unwritten.
fn has_cycle(alloc: Global, trace: &Trace) -> Result<Option<bool>, OutOfMemory> {
    match counted(alloc, trace)? {
        Some(count) => Ok(Some(count.is_cyclic)),
        None => Ok(None),
    }
}

/// How many traces of each kind are drawn.
const TRACES: u64 = 2000;

/// Fails unless a drawn trace is shown just where its rounds end without a cycle: whether they end with one.
fn compare_trace(
    alloc: Global,
    name: &'static str,
    drawn: Drawn,
    seed: u64,
) -> Result<Option<bool>, Fail> {
    let trace = drawn_trace(alloc, drawn, seed)?;
    let is_cyclic = has_cycle(alloc, &trace)?;
    if let Some(is_cyclic) = is_cyclic {
        expect_equal((name, seed), is_shown_acyclic(&trace), !is_cyclic)?;
    }
    Ok(is_cyclic)
}

/// Fails unless just the drawn traces are shown whose rounds end without a cycle, and there are traces of both kinds.
fn compare_drawn(alloc: Global, name: &'static str, drawn: Drawn) -> Result<(), Fail> {
    let mut shown = 0u64;
    let mut cyclic = 0u64;
    for seed in 0..TRACES {
        match compare_trace(alloc, name, drawn, seed)? {
            Some(false) => shown = shown.saturating_add(1),
            Some(true) => cyclic = cyclic.saturating_add(1),
            None => {}
        }
    }
    expect_equal((name, shown.min(cyclic)), shown >= 50 && cyclic >= 50, true)
}

/// How traces are drawn, by name.
static KINDS: [(&str, Drawn); 4] = [
    ("TSO", UNDER_TSO),
    ("PSO", UNDER_PSO),
    ("TSO with first values", WITH_FIRST_VALUES),
    ("PSO with first values", UNDER_PSO_WITH_FIRST_VALUES),
];

#[test]
fn drawn_traces_shown_as_by_rounds(rt: HostRuntime) -> Result<(), Fail> {
    for (name, drawn) in &KINDS {
        compare_drawn(rt.alloc(), name, *drawn)?;
    }
    Ok(())
}

/// What four processors of a machine do at three addresses, so many events.
fn machine_trace(alloc: Global, order: Order, events: usize) -> Result<Trace, Fail> {
    let lists = DrawingMachine::new(alloc, order, 4, 3)?.run(alloc, events)?;
    Trace::with_order(alloc, order, lists).map_err(|refused| refused.why.into())
}

/// Fails unless a run of a machine with so many events is shown where it is not too long.
fn expect_of_machine(alloc: Global, order: Order, events: usize) -> Result<(), Fail> {
    let trace = machine_trace(alloc, order, events)?;
    let found = (trace.events(), is_shown_acyclic(&trace));
    expect_equal(order, found, (events, events <= MAX_EVENTS))
}

/// Memory models, and how many events the runs have.
static MACHINES: [(Order, usize); 8] = [
    (Order::Tso, 24),
    (Order::Tso, 62),
    (Order::Tso, 63),
    (Order::Tso, 64),
    (Order::Pso, 24),
    (Order::Pso, 62),
    (Order::Pso, 63),
    (Order::Pso, 64),
];

#[test]
fn machines_are_shown_up_to_63_events(rt: HostRuntime) -> Result<(), Fail> {
    for (order, events) in &MACHINES {
        expect_of_machine(rt.alloc(), *order, *events)?;
    }
    Ok(())
}
