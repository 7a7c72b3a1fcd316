//! Worked examples of graphs, of rows of edges and of reasons.

use order_graph::Graph;
use std::alloc::{AllocError, Global};
use std::test::Fail;
use traces_for_tests::{expect_equal, two_swaps_both_first};
use tso_cert::{InferredRule, Reason};
use tso_ops::Trace;
use tso_rules::{base_row, justify, row_edges};

/// The edge from u to v, for numbers of the graph.
fn join(graph: &mut Graph, u: usize, v: usize) {
    if u < graph.nodes() && v < graph.nodes() {
        graph.add(u, v);
    }
}

/// The edges of a graph of four numbers.
static DIAMOND: [(usize, usize); 5] = [(0, 1), (0, 2), (1, 3), (2, 3), (3, 0)];

fn diamond(alloc: Global) -> Result<Graph, AllocError> {
    let mut graph = Graph::new(alloc, 4)?;
    for (u, v) in &DIAMOND {
        join(&mut graph, *u, *v);
    }
    Ok(graph)
}

/// The least path from 0 to 3.
fn least_path(graph: &Graph) -> Result<Option<Vec<usize>>, AllocError> {
    if graph.nodes() < 4 {
        return Ok(None);
    }
    graph.least_path(0, 3)
}

/// The numbers of an answer, none where there is no answer.
fn numbers_of(found: &Option<Vec<usize>>) -> &[usize] {
    match found {
        Some(list) => list.as_slice(),
        None => &[],
    }
}

static LEAST: [usize; 3] = [0, 1, 3];

#[test]
fn least_path_and_cycle_of_a_diamond(rt: HostRuntime) -> Result<(), Fail> {
    let graph = diamond(rt.alloc())?;
    let path = least_path(&graph)?;
    expect_equal("path", numbers_of(&path), LEAST.as_slice())?;
    let cycle = graph.least_cycle()?;
    expect_equal("cycle", numbers_of(&cycle), LEAST.as_slice())
}

/// The edges from u to each of a row.
fn join_row(graph: &mut Graph, u: usize, row: &[usize]) {
    for v in row {
        join(graph, u, *v);
    }
}

/// The graph of the base edges of a trace with numbers below 5.
fn base_graph(alloc: Global, trace: &Trace) -> Result<Graph, AllocError> {
    let mut graph = Graph::new(alloc, 5)?;
    for u in 0..graph.nodes() {
        let row = base_row(alloc, trace, u)?;
        join_row(&mut graph, u, &row);
    }
    Ok(graph)
}

/// Compares the edges that a round adds from a number over a graph.
fn expect_added(
    alloc: Global,
    trace: &Trace,
    graph: &Graph,
    u: usize,
    wanted: &[usize],
) -> Result<(), Fail> {
    let added = row_edges(alloc, trace, graph, u)?;
    expect_equal(u, added.as_slice(), wanted)
}

/// Whether a reason is that of the swap of a load after an edge, by a path of 1 and 4.
fn is_swap_after(reason: &Option<Reason>) -> bool {
    match reason {
        Some(Reason::Inferred { rule, load, path }) => {
            *rule == InferredRule::SwapAfter && *load == 1 && path.items() == [1, 4].as_slice()
        }
        _ => false,
    }
}

/// Of two swaps that both read the first value: what the first round adds, what the second does, and the reason of its edge.
#[test]
fn rows_and_a_reason_of_two_swaps(rt: HostRuntime) -> Result<(), Fail> {
    let alloc = rt.alloc();
    let trace = two_swaps_both_first(alloc)?;
    let mut graph = base_graph(alloc, &trace)?;
    expect_added(alloc, &trace, &graph, 1, &[4])?;
    expect_added(alloc, &trace, &graph, 2, &[])?;
    join(&mut graph, 1, 4);
    join(&mut graph, 3, 2);
    expect_added(alloc, &trace, &graph, 2, &[4])?;
    let reason = justify(alloc, &trace, &graph, 2, 4)?;
    expect_equal("reason", is_swap_after(&reason), true)
}
