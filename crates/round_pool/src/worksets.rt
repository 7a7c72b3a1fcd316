//! Which rows a round looks at, and among how many workers they are shared.
ghost use Rattle.std.specs.Prelude.{◌⊎◌, ◌+◌, ◌/◌, ◌≤◌, ◌<◌, ℕ, IfOk};
ghost use Rattle.order_graph.specs.Digraphs.{Digraph};
ghost use Rattle.round_pool.specs.Internal.Worksets.{IsWorkset, FollowsRound};

use order_graph::Graph;
use std::alloc::Global;
use tso_ops::{OutOfMemory, Trace};
use tso_rules::affected_rows;

/// How many rows of a later round are shared by a thread more.
const ROWS_OF_A_THREAD: usize = 64;

/// The rows of the first round: those of all events. OutOfMemory where an allocation was refused.
pub fn all_rows(alloc: Global, trace: &Trace) -> Result<Vec<usize>, OutOfMemory>
    ensures { IfOk result (λ numbers. (g : Digraph) → IsWorkset trace.now g numbers.items) }
{
    let mut numbers = Vec::with_capacity(alloc, trace.events())?;
    for u in 0..trace.events() {
        numbers.push(u + 1)?;
    }
    Ok(numbers)
}

/// The rows of a later round: those that rest on a number that reaches more since the round before. The graph was settled
/// before that round's edges were added. OutOfMemory where an allocation was refused.
pub fn changed_rows(alloc: Global, trace: &Trace, graph: &Graph) -> Result<Vec<usize>, OutOfMemory>
    ensures { IfOk result (λ numbers. (k : ℕ) (old : Digraph) → FollowsRound trace.now k old graph.now → IsWorkset trace.now graph.now numbers.items) }
{
    let grown = graph.grown()?;
    let numbers = affected_rows(alloc, trace, &grown)?;
    Ok(numbers)
}

/// How many of the workers share the rows of the first round: no more than rows, and at least one.
pub fn first_workers(workers: usize, rows: usize) -> usize
    requires { 1 ≤ workers }
    ensures some { 1 ≤ result }
    ensures most { result ≤ workers }
    ensures rows { (result ≤ 1) ⊎ (result ≤ rows) }
{
    workers.min(rows).max(1)
}

/// How many of the workers share the rows of a later round: one, and one more for each 64 rows.
pub fn later_workers(workers: usize, rows: usize) -> usize
    requires { 1 ≤ workers }
    ensures some { 1 ≤ result }
    ensures most { result ≤ workers }
    ensures rows { result ≤ 1 + rows / 64 }
{
    workers.min(1 + rows / ROWS_OF_A_THREAD)
}
