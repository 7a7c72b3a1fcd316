//! Allocations refused in turn: `rt try --test --fail-alloc N` refuses the Nth of each test.
//!
//! The call that meets it answers OutOfMemory, or NoThread where the allocation was that of a thread's start, and the next
//! call the ordinary answer.

use super::{expect, made, rank_of, rounds_of};
use order_graph::Graph;
use round_pool::{OpenPoolGate, PoolFault, Ranked};
use std::alloc::{AllocGlobal, Global};
use std::sync::Wait;
use std::test::Fail;
use std::thread::Threads;
use traces_for_tests::two_swaps_both_first;
use tso_ops::{OutOfMemory, Trace, ValueFault};

fn trace(alloc: Global) -> Result<Trace, ValueFault> {
    match two_swaps_both_first(alloc) {
        Err(ValueFault::OutOfMemory) => two_swaps_both_first(alloc),
        first => first,
    }
}

fn ranked<H: Threads + Wait + AllocGlobal>(
    rt: &H,
    trace: &Trace,
    workers: usize,
) -> Result<Ranked, PoolFault> {
    match made(rt, rt.alloc(), trace, workers, &OpenPoolGate) {
        Err(PoolFault::OutOfMemory) | Err(PoolFault::NoThread) => {
            made(rt, rt.alloc(), trace, workers, &OpenPoolGate)
        }
        first => first,
    }
}

#[test]
fn refused_allocations_of_rounds(rt: HostRuntime) -> Result<(), Fail> {
    let trace = trace(rt.alloc())?;
    let ranked = ranked(&rt, &trace, 2)?;
    expect(&rt, "rounds", rounds_of(&ranked), 2);
    expect(&rt, "2 to 4", rank_of(&ranked, 2, 4), Some(2));
    Ok(())
}

/// Whether the graph has the edge; none has an end past its numbers.
fn has(graph: &Graph, u: usize, v: usize) -> bool {
    u < graph.nodes() && v < graph.nodes() && graph.has(u, v)
}

/// The graph of rank set `k`, of the last round where there are fewer.
fn graph_up_to(ranked: &Ranked, k: u64) -> Result<Graph, OutOfMemory> {
    let k = k.min(ranked.rounds());
    match ranked.up_to(k) {
        Err(OutOfMemory) => ranked.up_to(k),
        first => first,
    }
}

/// Of two swaps that both read the first value, the second round alone adds the edge from 2 to 4, and none adds that from 2
/// to 1.
#[test]
fn refused_allocations_of_a_graph(rt: HostRuntime) -> Result<(), Fail> {
    let trace = trace(rt.alloc())?;
    let ranked = ranked(&rt, &trace, 1)?;
    let first = graph_up_to(&ranked, 1)?;
    expect(
        &rt,
        "rank set 1",
        [has(&first, 2, 4), has(&first, 2, 1)],
        [false; 2],
    );
    let second = graph_up_to(&ranked, 2)?;
    expect(
        &rt,
        "rank set 2",
        [has(&second, 2, 4), has(&second, 2, 1)],
        [true, false],
    );
    Ok(())
}
