//! The ranks of a trace's edges.
ghost use Rattle.std.specs.Prelude.{◌≡◌, ◌↔◌, ◌<◌, ◌≤◌, ◌-◌, length, map, get_or, [], IsTrue, IfOk, MatchOption};
ghost use Rattle.order_graph.specs.Digraphs.{IsEdge};
ghost use Rattle.tso_ops.specs.Values.{TraceValue};
ghost use Rattle.tso_model.specs.Ranks.{RankSet, HasRank};
ghost use Rattle.round_pool.specs.RankGraphs.{IsRankGraph, AddsEdges};
ghost use Rattle.round_pool.specs.Internal.EdgeLists.{AreAllWithin, IsGraphOf, IsDifferenceFrom};
ghost use Rattle.round_pool.specs.Rankings.{IsRankingOf, rounds_of, ListsEdge};

use crate::graphs::add_edges;
use order_graph::Graph;
use std::alloc::Global;
use std::marker::Model;
use tso_ops::OutOfMemory;

/// An edge of two numbers: 0 is the writer of the first values, each other an event.
#[derive(Clone, Copy, Debug, PartialEq, Eq)]
pub struct Edge {
    /// The number that it leads from.
    pub from: u16,
    /// The number that it leads to.
    pub to: u16,
}

/// The result of the rounds over a trace: how many they were, and which edges each added.
#[derive(Debug, Drop)]
pub struct Ranked {
    pub(crate) last: Graph,
    pub(crate) added: Vec<Vec<Edge>>,
}

impl Model for Ranked {
    ghost use Rattle.std.specs.Prelude.{map};
    ghost use Rattle.round_pool.specs.Internal.EdgeLists.{AreAllWithin};
    ghost use Rattle.round_pool.specs.Rankings.{Ranking};

    ghost Value = { Ranking };

    ghost view = { λ r. record { last = r.last; added = map (λ edges. edges.items) r.added.items } };

    ghost invariant = { λ r. AreAllWithin r.last.nodes (map (λ edges. edges.items) r.added.items) };
}

impl Ranked {
    /// The number of rounds that were made.
    pub fn rounds(&self) -> u64
        ensures { result ≡ length self.now.added }
    {
        self.added.len() as u64
    }

    /// The graph of the last rank set.
    pub fn last(&self) -> &Graph
        ensures { result.now ≡ self.now.last }
    {
        &self.last
    }

    /// The edges that round `k` added, from 1 to `rounds()`, in ascending order.
    pub fn added(&self, k: usize) -> &[Edge]
        requires from { 1 ≤ k }
        requires to { k ≤ length self.now.added }
        ensures { result.now ≡ get_or self.now.added (k - 1) [] }
    {
        &self.added[k - 1]
    }

    /// The rank of the edge from `u` to `v`, from 0: the first rank set that has it. None where the last rank set has no
    /// such edge.
    pub fn rank(&self, u: usize, v: usize) -> Option<u64>
        ensures { (t : TraceValue) → IsRankingOf t self.now → MatchOption result (RankSet t (rounds_of self.now) u v → ⊥) (HasRank t u v) }
    {
        if !has_edge(&self.last, u, v) {
            return None;
        }
        for (k, edges) in self.added.iter().enumerate() {
            if lists_edge(edges, u, v) {
                return Some(k as u64 + 1);
            }
        }
        Some(0)
    }

    /// The graph of rank set `k`, from 0 to `rounds()`; OutOfMemory where an allocation was refused.
    pub fn up_to(&self, k: u64) -> Result<Graph, OutOfMemory>
        requires { k ≤ rounds_of self.now }
        ensures { (t : TraceValue) → IsRankingOf t self.now → IfOk result (IsRankGraph t k) }
    {
        let alloc = *self.added.allocator();
        let later = graph_of(alloc, self.last.nodes(), &self.added, k as usize)?;
        difference(alloc, &self.last, &later)
    }
}

/// The graph of the edges of the lists from `first` on, which lie between the numbers below `nodes`.
fn graph_of(
    alloc: Global,
    nodes: usize,
    added: &[Vec<Edge>],
    first: usize,
) -> Result<Graph, OutOfMemory>
    requires within { AreAllWithin nodes (map (λ edges. edges.items) added.now) }
    requires first { first ≤ length added.now }
    ensures { IfOk result (IsGraphOf nodes (map (λ edges. edges.items) added.now) first (length added.now)) }
{
    let mut graph = Graph::new(alloc, nodes)?;
    for k in first..added.len() {
        add_edges(&mut graph, &added[k]);
    }
    Ok(graph)
}

/// The graph of the edges of the one graph that the other lacks.
fn difference(alloc: Global, last: &Graph, later: &Graph) -> Result<Graph, OutOfMemory>
    requires { later.now.nodes ≡ last.now.nodes }
    ensures { IfOk result (IsDifferenceFrom last.now later.now 0) }
{
    let mut graph = Graph::new(alloc, last.nodes())?;
    for u in (0..last.nodes()).rev() {
        add_kept(&mut graph, last, later, u);
    }
    Ok(graph)
}

/// Whether the graph has numbers `u` and `v` and the edge from the one to the other.
fn has_edge(graph: &Graph, u: usize, v: usize) -> bool
    ensures { IsTrue result ↔ IsEdge graph.now u v }
{
    let nodes = graph.nodes();
    u < nodes && v < nodes && graph.has(u, v)
}

/// Whether the edge from `u` to `v` is one of these.
fn lists_edge(edges: &[Edge], u: usize, v: usize) -> bool
    ensures { IsTrue result ↔ ListsEdge edges.now u v }
{
    for edge in edges {
        if edge.from as usize == u && edge.to as usize == v {
            return true;
        }
    }
    false
}

/// Adds the edges from `u` of the one graph that the other lacks.
fn add_kept(graph: &mut Graph, last: &Graph, later: &Graph, u: usize)
    requires from { u < graph.old.nodes }
    requires last { graph.old.nodes ≡ last.now.nodes }
    requires later { later.now.nodes ≡ last.now.nodes }
    ensures { AddsEdges graph.old graph.new (λ x y. (x ≡ u) × IsEdge last.now x y × (IsEdge later.now x y → ⊥)) }
{
    for v in 0..last.nodes() {
        if last.has(u, v) && !later.has(u, v) {
            graph.add(u, v);
        }
    }
}
