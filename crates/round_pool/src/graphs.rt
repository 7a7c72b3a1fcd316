//! Graphs of rank sets.
ghost use Rattle.std.specs.Prelude.{◌<◌, IfOk};
ghost use Rattle.order_graph.specs.Digraphs.{IsEdge};
ghost use Rattle.tso_rules.specs.SourceMasks.{AreSourceMasks};
ghost use Rattle.round_pool.specs.Internal.Worksets.{OnlyGrown};
ghost use Rattle.round_pool.specs.RankGraphs.{IsRankGraph, AddsEdges};
ghost use Rattle.round_pool.specs.Rankings.{ListsEdge, AreEdgesWithin};

use crate::ranked::Edge;
use order_graph::{EdgeRows, Graph};
use std::alloc::Global;
use tso_ops::{OutOfMemory, Trace};
use tso_rules::{SourceMasks, masked_base_words};

/// The graph of the base edges, or OutOfMemory where an allocation was refused.
pub fn base_graph(alloc: Global, trace: &Trace, masks: &SourceMasks) -> Result<Graph, OutOfMemory>
    requires { AreSourceMasks trace.now masks.now }
    ensures { IfOk result (IsRankGraph trace.now 0) }
{
    let nodes = trace.node_count();
    let mut rows = EdgeRows::new(alloc, nodes)?;
    for u in 0..nodes {
        let row = masked_base_words(alloc, trace, masks, u)?;
        rows.add_row(u, &row);
    }
    Ok(Graph::of_rows(rows)?)
}

/// Adds these edges. What reaches more by them has grown in the graph then.
pub fn add_edges(graph: &mut Graph, edges: &[Edge])
    requires { AreEdgesWithin graph.old.nodes edges.now }
    ensures edges { AddsEdges graph.old graph.new (ListsEdge edges.now) }
    ensures grown { OnlyGrown (IsEdge graph.old) graph.new }
{
    for edge in edges {
        graph.add(edge.from as usize, edge.to as usize);
    }
}
