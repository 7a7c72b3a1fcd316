//! The inferred rules, over any graph that has the edges of lesser rank. Rounds take LoadPast from `over_base`, which is
//! faster there.
ghost use Rattle.std.specs.Prelude.{◌≡◌, ℕ, suc, Some, IfOk, OnOk, IfSome};
ghost use Rattle.order_graph.specs.Digraphs.{IsEdge};
ghost use Rattle.tso_ops.specs.Events.{IsSwapLoad};
ghost use Rattle.tso_model.specs.NewEdges.{IsNew};
ghost use Rattle.bitsets.specs.Rows.{IsListOf, Marks};
ghost use Rattle.tso_rules.specs.Internal.MarkedRows.{IsNewRow};

use crate::paths::path_row;
use crate::sources::sources_of;
use bitsets::{mark_word, marked, word_at, word_below, word_without};
use order_graph::Graph;
use std::alloc::Global;
use tso_cert::InferredRule;
use tso_ops::{OutOfMemory, Trace};

/// The numbers to which an inferred rule gives an edge from `u` by a path in the graph, and to which the graph has no
/// path from `u`: ascending. OutOfMemory where an allocation was refused.
///
/// It takes a few looks at each word of the graph's path rows, and for a store one at each load of its address that it
/// reaches.
/// The graph of a trace's edges has a number for `init` and one for each event.
pub fn row_edges(
    alloc: Global,
    trace: &Trace,
    graph: &Graph,
    u: usize,
) -> Result<Vec<usize>, OutOfMemory>
    ensures { IfOk result (λ row. IsListOf row.items (IsNew trace.now (IsEdge graph.now) u)) }
{
    let _events = trace.events();
    let mut marks = Vec::new(alloc);
    mark_new(alloc, trace, graph, &mut marks, u)?;
    marked(alloc, &marks, trace.node_count())
}

/// Marks the numbers to which an inferred rule gives an edge from `u` by a path in the graph, and to which the graph has
/// no path.
fn mark_new(
    alloc: Global,
    trace: &Trace,
    graph: &Graph,
    marks: &mut Vec<u64>,
    u: usize,
) -> Result<(), OutOfMemory>
    ensures { OnOk result (Marks marks.old.items marks.new.items (IsNew trace.now (IsEdge graph.now) u)) }
{
    mark_load_past(alloc, trace, graph, marks, u)?;
    mark_store_past(trace, graph, marks, u)?;
    mark_swap_before(trace, graph, marks, u)?;
    mark_swap_after(trace, graph, marks, u)
}

/// Marks the ends of the new edges from `u` that the rule LoadPast gives: the sources of the loads of its address that it
/// reaches, if it is a store. Those that it reaches itself are left out last, all at once.
fn mark_load_past(
    alloc: Global,
    trace: &Trace,
    graph: &Graph,
    marks: &mut Vec<u64>,
    u: usize,
) -> Result<(), OutOfMemory>
    ensures { OnOk result (Marks marks.old.items marks.new.items (IsNewRow trace.now InferredRule.LoadPast (IsEdge graph.now) u)) }
{
    let Some(event) = trace.event(u) else {
        return Ok(());
    };
    if event.load {
        return Ok(());
    }
    let reached = path_row(graph, u);
    let sources = sources_of(alloc, trace, reached, trace.load_words(event.a), u)?;
    for (j, word) in sources.iter().enumerate() {
        mark_word(marks, j, *word & !word_at(reached, j))?;
    }
    Ok(())
}

/// Marks the ends of the new edges from `u` that the rule StorePast gives: the stores to its address that come after its
/// source `s`, if it is a load.
pub(crate) fn mark_store_past(
    trace: &Trace,
    graph: &Graph,
    marks: &mut Vec<u64>,
    u: usize,
) -> Result<(), OutOfMemory>
    ensures { OnOk result (Marks marks.old.items marks.new.items (IsNewRow trace.now InferredRule.StorePast (IsEdge graph.now) u)) }
{
    let Some(event) = trace.event(u) else {
        return Ok(());
    };
    let Some(s) = trace.source_number(u) else {
        return Ok(());
    };
    let stores = trace.store_words(event.a);
    let reached = path_row(graph, u);
    for (j, word) in path_row(graph, s).iter().enumerate() {
        let numbers = *word & word_at(stores, j) & !word_at(reached, j);
        mark_word(marks, j, word_without(numbers, j, s))?;
    }
    Ok(())
}

/// Marks the ends of the new edges from `u` that the rule SwapBefore gives: the loads of other swaps whose stores, the
/// numbers above, come after `u`, if it is a store.
pub(crate) fn mark_swap_before(
    trace: &Trace,
    graph: &Graph,
    marks: &mut Vec<u64>,
    u: usize,
) -> Result<(), OutOfMemory>
    ensures { OnOk result (Marks marks.old.items marks.new.items (IsNewRow trace.now InferredRule.SwapBefore (IsEdge graph.now) u)) }
{
    if !trace.is_store(u) {
        return Ok(());
    }
    let loads = trace.swap_load_words();
    let reached = path_row(graph, u);
    for (j, word) in reached.iter().enumerate() {
        let numbers = word_below(reached, j) & word_at(loads, j) & !*word;
        mark_word(marks, j, word_without(numbers, j, u - 1))?;
    }
    Ok(())
}

/// Marks the ends of the new edges from `u` that the rule SwapAfter gives: the other stores that come after the load of
/// the swap whose store is `u`.
pub(crate) fn mark_swap_after(
    trace: &Trace,
    graph: &Graph,
    marks: &mut Vec<u64>,
    u: usize,
) -> Result<(), OutOfMemory>
    ensures { OnOk result (Marks marks.old.items marks.new.items (IsNewRow trace.now InferredRule.SwapAfter (IsEdge graph.now) u)) }
{
    let Some(l) = swap_load(trace, u) else {
        return Ok(());
    };
    let stores = trace.all_store_words();
    let reached = path_row(graph, u);
    for (j, word) in path_row(graph, l).iter().enumerate() {
        let numbers = *word & word_at(stores, j) & !word_at(reached, j);
        mark_word(marks, j, word_without(numbers, j, u))?;
    }
    Ok(())
}

/// The load of the swap whose store is `u`.
#[inline]
fn swap_load(trace: &Trace, u: usize) -> Option<usize>
    ensures is { IfSome result (λ l. IsSwapLoad trace.now l × (u ≡ suc l)) }
    ensures all { (l : ℕ) → IsSwapLoad trace.now l → u ≡ suc l → result ≡ Some l }
{
    let l = u.checked_sub(1)?;
    trace.swap_store(l)?;
    Some(l)
}
