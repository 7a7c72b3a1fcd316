//! The rounds of a trace.
ghost use Rattle.std.specs.Prelude.{◌↔◌, ◌≤◌, ◌<◌, ℕ, IsTrue, IfOk};
ghost use Rattle.order_paths.specs.Paths.{HasCycle};
ghost use Rattle.order_graph.specs.Digraphs.{IsEdge};
ghost use Rattle.tso_ops.specs.Events.{IsUnwritten};
ghost use Rattle.tso_model.specs.Ranks.{RankSet};
ghost use Rattle.round_pool.specs.Internal.Worksets.{OnlyGrown, ClosesCycle};
ghost use Rattle.round_pool.specs.RankGraphs.{AddsEdges};
ghost use Rattle.round_pool.specs.Rankings.{IsRankingOf, ListsEdge, AreEdgesWithin};
ghost use Rattle.round_pool.specs.Workers.{worker_limit};

use crate::edges::round_edges;
use crate::faults::PoolFault;
use crate::gates::PoolGate;
use crate::graphs::{add_edges, base_graph};
use crate::ranked::{Edge, Ranked};
use crate::worker_rows::RowInput;
use crate::worksets::{all_rows, changed_rows, first_workers, later_workers};
use order_graph::Graph;
use std::alloc::Global;
use std::sync::Wait;
use std::thread::Threads;
use tso_ops::Trace;
use tso_rules::SourceMasks;

/// The greatest number of workers.
pub const MAX_WORKERS: usize = 64;

/// Makes the rounds over a trace in which no load is unwritten: from the base edges, each adds the edges that an inferred
/// rule gives by a path over the edges before it and that have no path yet. They end with the first rank set that has a
/// cycle, or that the next round would add nothing to.
///
/// The rows of the first round are those of all events, 1 to `events()`; a later round looks at the rows that the round
/// before changed: u, ascending, where u, its source if it is a load, or the load of its swap reaches more than before.
/// No other row has an edge to give.
///
/// The rows of a round are computed by `workers` threads, 1 to 64: the caller's is worker 0. The others are started for the
/// first round as far as there are rows, for a later one as far as there are 64 rows for each; then the workers claim one
/// row after the other. Each worker calls the gate before it computes a row. The answer is the same for each number of
/// workers and each gate.
///
/// OutOfMemory where an allocation was refused, the caller's or a worker's; else NoThread where the system refused a thread. All
/// threads are joined on each.
pub fn rounds<H: Threads + Wait, G: PoolGate + Sync>(
    rt: &H,
    alloc: Global,
    trace: &Trace,
    workers: usize,
    gate: &G,
) -> Result<Ranked, PoolFault>
    requires written { (l : ℕ) → IsUnwritten trace.now l → ⊥ }
    requires some { 1 ≤ workers }
    requires most { workers ≤ worker_limit }
    ensures { IfOk result (IsRankingOf trace.now) }
{
    rounds_after_acyclic(rt, alloc, trace, workers, gate, 0)
}

/// Makes the rounds that `rounds` makes, with the same answers and faults, for a trace of which the first `acyclic` rank sets
/// are known to have no cycle: no cycle is looked for after a round that makes one of them. Rank set 0, the base edges, is
/// always looked at.
pub fn rounds_after_acyclic<H: Threads + Wait, G: PoolGate + Sync>(
    rt: &H,
    alloc: Global,
    trace: &Trace,
    workers: usize,
    gate: &G,
    acyclic: u64,
) -> Result<Ranked, PoolFault>
    requires written { (l : ℕ) → IsUnwritten trace.now l → ⊥ }
    requires some { 1 ≤ workers }
    requires most { workers ≤ worker_limit }
    requires acyclic { (k : ℕ) → k < acyclic → HasCycle (RankSet trace.now k) → ⊥ }
    ensures { IfOk result (IsRankingOf trace.now) }
{
    let masks = SourceMasks::new(alloc, trace)?;
    let mut last = base_graph(alloc, trace, &masks)?;
    let mut added = Vec::new(alloc);
    if has_cycle(&last) {
        return Ok(Ranked { last, added });
    }
    let mut numbers = all_rows(alloc, trace)?;
    let mut sharing = first_workers(workers, numbers.len());
    loop {
        let input = RowInput {
            trace,
            graph: &last,
            masks: &masks,
        };
        let edges = round_edges(rt, alloc, input, gate, sharing, &numbers)?;
        if edges.is_empty() {
            return Ok(Ranked { last, added });
        }
        add_round(&mut last, &edges);
        let is_cyclic = ends_in_cycle(&last, &edges, added.len() as u64 + 1, acyclic);
        added.push(edges)?;
        if is_cyclic {
            return Ok(Ranked { last, added });
        }
        numbers = changed_rows(alloc, trace, &last)?;
        sharing = later_workers(workers, numbers.len());
    }
}

/// Adds the edges of a round. The graph is settled before: what reaches more by the edges has grown in it then.
fn add_round(graph: &mut Graph, edges: &[Edge])
    requires { AreEdgesWithin graph.old.nodes edges.now }
    ensures edges { AddsEdges graph.old graph.new (ListsEdge edges.now) }
    ensures grown { OnlyGrown (IsEdge graph.old) graph.new }
{
    graph.settle();
    add_edges(graph, edges);
}

/// Whether one of the edges of the round that made rank set `number` closes a cycle. No cycle is looked for where this is one
/// of the first `acyclic` rank sets, those from 0 to `acyclic - 1`.
fn ends_in_cycle(graph: &Graph, edges: &[Edge], number: u64, acyclic: u64) -> bool
    requires { AreEdgesWithin graph.now.nodes edges.now }
    ensures { IsTrue result ↔ (acyclic ≤ number) × ClosesCycle graph.now (ListsEdge edges.now) }
{
    number >= acyclic && closes_cycle(graph, edges)
}

/// Whether one of these edges leads from a number that its end reaches.
fn closes_cycle(graph: &Graph, edges: &[Edge]) -> bool
    requires { AreEdgesWithin graph.now.nodes edges.now }
    ensures { IsTrue result ↔ ClosesCycle graph.now (ListsEdge edges.now) }
{
    for edge in edges {
        if graph.reaches(edge.to as usize, edge.from as usize) {
            return true;
        }
    }
    false
}

/// Whether a number of the graph reaches itself.
fn has_cycle(graph: &Graph) -> bool
    ensures { IsTrue result ↔ HasCycle (IsEdge graph.now) }
{
    for x in 0..graph.nodes() {
        if graph.reaches(x, x) {
            return true;
        }
    }
    false
}
