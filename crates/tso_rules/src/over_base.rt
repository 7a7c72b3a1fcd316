//! The inferred rules as rounds use them: over a graph that has the trace's base edges, with masks of sources made once for the
//! trace.
ghost use Rattle.std.specs.Prelude.{◌≢◌, ℕ, IfOk, OnOk};
ghost use Rattle.order_graph.specs.Digraphs.{IsEdge};
ghost use Rattle.tso_model.specs.NewEdges.{IsNew};
ghost use Rattle.tso_model.specs.Ranks.{RankSet};
ghost use Rattle.bitsets.specs.Rows.{HasNumber, IsListOf, Marks};
ghost use Rattle.tso_rules.specs.SourceMasks.{AreSourceMasks};
ghost use Rattle.tso_rules.specs.Internal.MarkedRows.{IsNewRow};

use crate::above::{first_above, processor_row};
use crate::inferred::{mark_store_past, mark_swap_after, mark_swap_before};
use crate::lacking::may_lack;
use crate::masks::SourceMasks;
use crate::paths::path_row;
use bitsets::{mark_word, marked, word_at, word_without};
use order_graph::Graph;
use std::alloc::Global;
use tso_cert::InferredRule;
use tso_ops::{OutOfMemory, Trace};

/// The numbers to which an inferred rule gives an edge from `u` by a path in the graph, and to which the graph has no
/// path from `u`: ascending. OutOfMemory where an allocation was refused.
///
/// It answers what `row_edges` does, over a graph that has the trace's base edges: there a load reaches the program-later
/// loads, so of the loads of its address that `u` reaches, one for each processor is looked at, and its mask has the
/// sources of the others. It takes a few looks at each word of a row for each processor.
pub fn row_edges_over_base(
    alloc: Global,
    trace: &Trace,
    masks: &SourceMasks,
    graph: &Graph,
    u: usize,
) -> Result<Vec<usize>, OutOfMemory>
    requires masks { AreSourceMasks trace.now masks.now }
    requires base { (x y : ℕ) → RankSet trace.now 0 x y → IsEdge graph.now x y }
    ensures { IfOk result (λ row. IsListOf row.items (IsNew trace.now (IsEdge graph.now) u)) }
{
    let _events = trace.events();
    let mut marks = Vec::new(alloc);
    mark_new_over_base(trace, masks, graph, &mut marks, u)?;
    marked(alloc, &marks, trace.node_count())
}

/// Marks the numbers to which an inferred rule gives an edge from `u` by a path in the graph, and to which the graph has
/// no path.
fn mark_new_over_base(
    trace: &Trace,
    masks: &SourceMasks,
    graph: &Graph,
    marks: &mut Vec<u64>,
    u: usize,
) -> Result<(), OutOfMemory>
    requires masks { AreSourceMasks trace.now masks.now }
    requires base { (x y : ℕ) → RankSet trace.now 0 x y → IsEdge graph.now x y }
    ensures { OnOk result (Marks marks.old.items marks.new.items (IsNew trace.now (IsEdge graph.now) u)) }
{
    mark_load_past_over_base(trace, masks, graph, marks, u)?;
    mark_store_past(trace, graph, marks, u)?;
    mark_swap_before(trace, graph, marks, u)?;
    mark_swap_after(trace, graph, marks, u)
}

/// Marks the ends of the new edges from `u` that the rule LoadPast gives: the sources of the loads of its address that it
/// reaches, if it is a store. After a load, those of its processor are passed over: its mask has their sources.
fn mark_load_past_over_base(
    trace: &Trace,
    masks: &SourceMasks,
    graph: &Graph,
    marks: &mut Vec<u64>,
    u: usize,
) -> Result<(), OutOfMemory>
    requires masks { AreSourceMasks trace.now masks.now }
    requires base { (x y : ℕ) → RankSet trace.now 0 x y → IsEdge graph.now x y }
    ensures { OnOk result (Marks marks.old.items marks.new.items (IsNewRow trace.now InferredRule.LoadPast (IsEdge graph.now) u)) }
{
    let _events = trace.events();
    let Some(event) = trace.event(u) else {
        return Ok(());
    };
    if event.load {
        return Ok(());
    }
    let reached = path_row(graph, u);
    let loads = trace.load_words(event.a);
    let mut last = 0;
    'loads: while let Some(load) = first_above(loads, reached, processor_row(trace, last), last) {
        mark_unreached(marks, masks.sources_from(load), reached, u)?;
        last = load;
    }
    Ok(())
}

/// Marks the numbers of a row that aren't reached and aren't `u`. In most rows all are reached, which takes one look.
pub(crate) fn mark_unreached(
    marks: &mut Vec<u64>,
    row: &[u64],
    reached: &[u64],
    u: usize,
) -> Result<(), OutOfMemory>
    ensures { OnOk result (Marks marks.old.items marks.new.items (λ v. (HasNumber row.now v × (HasNumber reached.now v → ⊥)) × (v ≢ u))) }
{
    if !may_lack(row, reached) {
        return Ok(());
    }
    for (j, word) in row.iter().enumerate() {
        let numbers = *word & !word_at(reached, j);
        mark_word(marks, j, word_without(numbers, j, u))?;
    }
    Ok(())
}
