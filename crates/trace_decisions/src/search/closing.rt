//! A graph that is closed under the inferred rules, after a supposed edge.

use crate::search::links::{Link, Links};
use order_graph::{EdgeRows, Graph};
use std::alloc::Global;
use tso_ops::{OutOfMemory, Trace};
use tso_rules::{affected_rows, row_edges};

/// A graph with the paths of that of the rounds, and the edges of the later links. OutOfMemory where an allocation was refused.
pub(crate) fn graph_with(
    alloc: Global,
    closed: &Graph,
    links: &Links<'_>,
) -> Result<Graph, OutOfMemory> {
    let mut graph = Graph::of_rows(path_rows(alloc, closed)?)?;
    for place in links.of_all_rounds()..links.count() {
        if let Some(link) = links.at(place) {
            add_edge(&mut graph, link.from, link.to);
        }
    }
    graph.settle();
    Ok(graph)
}

/// The paths of a graph as edges. OutOfMemory where an allocation was refused.
fn path_rows(alloc: Global, closed: &Graph) -> Result<EdgeRows, OutOfMemory> {
    let nodes = closed.nodes();
    let mut rows = EdgeRows::new(alloc, nodes)?;
    for u in 0..nodes {
        rows.add_row(u, closed.path_words(u));
    }
    Ok(rows)
}

/// Adds an edge, if it lies between numbers of the graph.
fn add_edge(graph: &mut Graph, u: usize, v: usize) {
    if u < graph.nodes() && v < graph.nodes() {
        graph.add(u, v);
    }
}

/// Adds a link to a closed graph and to the links, and what the inferred rules give then: the place of the link that closes a
/// cycle, if one does.
pub(crate) fn add_closed(
    trace: &Trace,
    graph: &mut Graph,
    links: &mut Links<'_>,
    link: Link,
) -> Option<usize> {
    graph.settle();
    match add_link(graph, links, link) {
        Some(place) => Some(place),
        None => close(trace, graph, links),
    }
}

/// Adds a link to the graph and to the links. Its place, where it closes a cycle.
fn add_link(graph: &mut Graph, links: &mut Links<'_>, link: Link) -> Option<usize> {
    let place = links.add(link);
    if leads(graph, link.to, link.from) {
        return Some(place);
    }
    add_edge(graph, link.from, link.to);
    None
}

/// Whether a path leads from one number of the graph to the other.
pub(crate) fn leads(graph: &Graph, u: usize, v: usize) -> bool {
    u < graph.nodes() && v < graph.nodes() && graph.reaches(u, v)
}

/// Adds what the inferred rules give by the paths of the graph, until they give nothing more: the place of the link that closes a
/// cycle, if one does. The graph is closed but for what has grown in it.
fn close(trace: &Trace, graph: &mut Graph, links: &mut Links<'_>) -> Option<usize> {
    // Each turn but the last adds a path between two numbers.
    let nodes = trace.node_count();
    for _ in 0..nodes.saturating_mul(nodes) {
        let grown = links.memory.list(graph.grown());
        if grown.is_empty() {
            return None;
        }
        graph.settle();
        let place = add_affected(trace, graph, links, &grown);
        if place.is_some() {
            return place;
        }
    }
    None
}

/// Adds what the rules give from the numbers that what has grown affects.
fn add_affected(
    trace: &Trace,
    graph: &mut Graph,
    links: &mut Links<'_>,
    grown: &[usize],
) -> Option<usize> {
    let memory = links.memory;
    let rows = memory.list(affected_rows(memory.alloc(), trace, grown));
    for u in &rows {
        let ends = memory.list(row_edges(memory.alloc(), trace, graph, *u));
        let place = add_ends(graph, links, *u, &ends);
        if place.is_some() {
            return place;
        }
    }
    None
}

/// Adds the edges from a number to these, but for those that a path has come to lead to meanwhile.
fn add_ends(graph: &mut Graph, links: &mut Links<'_>, u: usize, ends: &[usize]) -> Option<usize> {
    for v in ends {
        let place = add_end(graph, links, u, *v);
        if place.is_some() {
            return place;
        }
    }
    None
}

/// Adds an edge, unless a path leads there: the place of its link, where that closes a cycle.
fn add_end(graph: &mut Graph, links: &mut Links<'_>, u: usize, v: usize) -> Option<usize> {
    if leads(graph, u, v) {
        return None;
    }
    let link = Link {
        from: u,
        to: v,
        is_case: false,
    };
    add_link(graph, links, link)
}
