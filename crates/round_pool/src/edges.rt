//! The edges that a round adds.
ghost use Rattle.std.specs.Prelude.{◌≡◌, ◌+◌, ◌*◌, ◌<◌, ◌≤◌, ◌++◌, length, map, All, AllPairs, IfOk, OnOk};
ghost use Rattle.tso_ops.specs.Values.{rows};
ghost use Rattle.round_pool.specs.Internal.EdgeLists.{AreNewEdges, AreEdgesOf, AreAscendingBelow};
ghost use Rattle.round_pool.specs.Internal.WorkerRows.{AreOverBase};
ghost use Rattle.round_pool.specs.Internal.Worksets.{IsWorkset};
ghost use Rattle.round_pool.specs.Rankings.{edge_from};
ghost use Rattle.round_pool.specs.Workers.{worker_limit};

use crate::faults::PoolFault;
use crate::gates::PoolGate;
use crate::ranked::Edge;
use crate::worker_rows::{RowInput, rows_by_workers};
use std::alloc::Global;
use std::sync::Wait;
use std::thread::Threads;
use tso_ops::OutOfMemory;

/// The edge from `u` to `v`.
fn edge_of(u: usize, v: u16) -> Edge
    requires { u < 65536 }
    ensures { result ≡ edge_from u v }
{
    Edge {
        from: u as u16,
        to: v,
    }
}

/// Pushes the edges from `u` to the numbers of a row.
fn push_row(edges: &mut Vec<Edge>, u: usize, row: &[u16]) -> Result<(), OutOfMemory>
    requires { u < 65536 }
    ensures { OnOk result (edges.new.items ≡ edges.old.items ++ map (edge_from u) row.now) }
{
    for v in row {
        edges.push(edge_of(u, *v))?;
    }
    Ok(())
}

/// The edges from these numbers, each to the numbers of its row.
fn edges_of(alloc: Global, numbers: &[usize], made: &[Vec<u16>]) -> Result<Vec<Edge>, OutOfMemory>
    requires count { length made.now ≡ length numbers.now }
    requires ascending { AllPairs (λ x y. x < y) numbers.now }
    requires below { All (λ u. u < 65536) numbers.now }
    requires rows { AreAscendingBelow 65536 (rows made.now) }
    ensures { IfOk result (λ edges. AreEdgesOf numbers.now (rows made.now) (length numbers.now) edges.items) }
{
    let mut edges = Vec::new(alloc);
    for (i, row) in made.iter().enumerate() {
        push_row(&mut edges, numbers[i], row)?;
    }
    Ok(edges)
}

/// The edges that a round adds to the graph of a rank set, in ascending order, where all of them lead from these numbers.
/// The rows of the numbers are shared among `workers` threads, 1 to 64, of which the caller's is one.
pub fn round_edges<H: Threads + Wait, G: PoolGate + Sync>(
    rt: &H,
    alloc: Global,
    input: RowInput<'_>,
    gate: &G,
    workers: usize,
    numbers: &[usize],
) -> Result<Vec<Edge>, PoolFault>
    requires base { AreOverBase input.trace.now input.graph.now input.masks.now }
    requires workset { IsWorkset input.trace.now input.graph.now numbers.now }
    requires some { 1 ≤ workers }
    requires most { workers ≤ worker_limit }
    ensures { IfOk result (λ edges. AreNewEdges input.entry.trace.now input.entry.graph.now edges.items) }
{
    let _events = input.trace.events();
    let made = rows_by_workers(rt, alloc, input, gate, workers, numbers)?;
    let edges = edges_of(alloc, numbers, &made)?;
    Ok(edges)
}
