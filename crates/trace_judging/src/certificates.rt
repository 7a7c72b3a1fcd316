//! The certificate of a trace, from the ranks of its edges.
ghost use Rattle.std.specs.Prelude.{◌≡◌, ◌↔◌, ℕ, suc, ◌<◌, IfOk, OnOk, MatchOption, List, reverse};
ghost use Rattle.order_paths.specs.Neighbours.{AreNeighbours, AreOnCycle};
ghost use Rattle.order_paths.specs.Paths.{IsCycle};
ghost use Rattle.order_graph.specs.Digraphs.{IsEdge};
ghost use Rattle.tso_ops.specs.Events.{event_total, IsUnwritten};
ghost use Rattle.tso_model.specs.Rules.{HasDerivedCycle};
ghost use Rattle.tso_model.specs.Ranks.{RankSet};
ghost use Rattle.tso_model.specs.Certs.{AreStepsOf, IsCertificateOf};
ghost use Rattle.tso_model.specs.ReasonEdges.{AreUsedBy};
ghost use Rattle.tso_rules.specs.Rows.{IsUngiven};
ghost use Rattle.round_pool.specs.RankGraphs.{IsRankGraph, AddsEdges};
ghost use Rattle.round_pool.specs.Rankings.{IsRankingOf, rounds_of, ListsEdge, AreEdgesWithin};
ghost use Rattle.trace_judging.specs.Internal.Collecting.{AreNumbersBelow, IsReasonBelow, CollectsEdge, Collects, IsAboveRank, IsAboveOrBase};

use order_graph::{EdgeRows, EdgeSet};
use round_pool::{Edge, Ranked};
use std::alloc::Global;
use tso_cert::{CertStep, Certificate, NumList, Reason, StepList};
use tso_ops::{OutOfMemory, Trace};
use tso_rules::{base_edge, justify};

/// The certificate of a trace, from the ranks of its edges: the least cycle of the last rank set, with the steps that
/// it rests on. None where the last rank set has no cycle. OutOfMemory where an allocation was refused.
///
/// It goes from the last rank down over one set of edges, from which it removes those of each rank before it
/// justifies them.
pub fn build_cert(
    alloc: Global,
    trace: &Trace,
    ranked: &Ranked,
) -> Result<Option<Certificate>, OutOfMemory>
    requires written { (l : ℕ) → IsUnwritten trace.now l → ⊥ }
    requires ranked { IsRankingOf trace.now ranked.now }
    ensures { IfOk result (λ found. MatchOption found (HasDerivedCycle trace.now → ⊥) (IsCertificateOf trace.now)) }
{
    let Some(least) = ranked.last().least_cycle()? else {
        return Ok(None);
    };
    let cycle = NumList::from_numbers(alloc, &least)?;
    let mut steps = steps_of(alloc, trace, ranked, &cycle)?;
    steps.reverse();
    Ok(Some(Certificate::Cycle {
        steps: StepList::new(steps),
        cycle,
    }))
}

/// The steps that a cycle of the last rank set rests on, from the last to the first.
fn steps_of(
    alloc: Global,
    trace: &Trace,
    ranked: &Ranked,
    cycle: &NumList,
) -> Result<Vec<CertStep>, OutOfMemory>
    requires ranked { IsRankingOf trace.now ranked.now }
    requires cycle { IsCycle (RankSet trace.now (rounds_of ranked.now)) cycle.now }
    ensures { IfOk result (λ steps. AreStepsOf trace.now (reverse steps.items) cycle.now) }
{
    let mut set = ranked.last().edge_set()?;
    let mut marks = EdgeRows::new(alloc, set.nodes())?;
    mark_cycle(&mut marks, cycle.items());
    let mut steps = Vec::new(alloc);
    for r in (0..ranked.rounds() as usize).rev() {
        remove_edges(&mut set, ranked.added(r + 1));
        collect_round(trace, ranked, r, &set, &mut marks, &mut steps)?;
    }
    collect_base(trace, &marks, &mut steps)?;
    Ok(steps)
}

/// Marks the neighbours in the path.
fn mark_path(marks: &mut EdgeRows, path: &[u64])
    requires { AreNumbersBelow marks.old.nodes path.now }
    ensures { AddsEdges marks.old marks.new (AreNeighbours path.now) }
{
    for i in 1..path.len() {
        marks.add(path[i - 1] as usize, path[i] as usize);
    }
}

/// Marks the edges of the cycle.
fn mark_cycle(marks: &mut EdgeRows, cycle: &[u64])
    requires { AreNumbersBelow marks.old.nodes cycle.now }
    ensures { AddsEdges marks.old marks.new (AreOnCycle cycle.now) }
{
    mark_path(marks, cycle);
    if cycle.is_empty() {
        return;
    }
    marks.add(cycle[cycle.len() - 1] as usize, cycle[0] as usize);
}

/// Marks the edges that the justification uses.
fn mark_used(marks: &mut EdgeRows, reason: &Reason)
    requires { IsReasonBelow marks.old.nodes reason.now }
    ensures { AddsEdges marks.old marks.new (AreUsedBy reason.now) }
{
    match reason {
        Reason::Base(_) => {}
        Reason::Inferred { path, .. } => mark_path(marks, path.items()),
    }
}

/// Removes the edges from the set.
fn remove_edges(set: &mut EdgeSet, edges: &[Edge])
    requires { AreEdgesWithin set.old.nodes edges.now }
    ensures nodes { set.new.nodes ≡ set.old.nodes }
    ensures edges { (x y : ℕ) → IsEdge set.new x y ↔ (IsEdge set.old x y × (ListsEdge edges.now x y → ⊥)) }
{
    for edge in edges {
        set.remove(edge.from as usize, edge.to as usize);
    }
}

/// Adds the step of the edge from `u` to `v`, where it is marked, and marks what its justification over the set uses.
fn collect_edge(
    trace: &Trace,
    set: &EdgeSet,
    marks: &mut EdgeRows,
    steps: &mut Vec<CertStep>,
    u: usize,
    v: usize,
) -> Result<(), OutOfMemory>
    requires nodes { marks.old.nodes ≡ set.now.nodes }
    requires from { u < marks.old.nodes }
    requires to { v < marks.old.nodes }
    requires given { IsUngiven trace.now (IsEdge set.now) u v → ⊥ }
    ensures { OnOk result (CollectsEdge trace.now (IsEdge set.now) u v marks.old marks.new steps.old.items steps.new.items) }
{
    if !marks.has(u, v) {
        return Ok(());
    }
    let _nodes = set.nodes();
    let alloc = *steps.allocator();
    let Some(reason) = justify(alloc, trace, set, u, v)? else {
        unreachable!()
    };
    mark_used(marks, &reason);
    steps.push(CertStep {
        from: u as u64,
        to: v as u64,
        reason,
    })?;
    Ok(())
}

/// Adds the steps of the marked edges of rank `r + 1`, from the last to the first, over the set, which has the edges of
/// lesser rank.
fn collect_round(
    trace: &Trace,
    ranked: &Ranked,
    r: usize,
    set: &EdgeSet,
    marks: &mut EdgeRows,
    steps: &mut Vec<CertStep>,
) -> Result<(), OutOfMemory>
    requires ranked { IsRankingOf trace.now ranked.now }
    requires round { r < rounds_of ranked.now }
    requires set { IsRankGraph trace.now r set.now }
    requires nodes { marks.old.nodes ≡ suc (event_total trace.now) }
    ensures nodes { OnOk result (marks.new.nodes ≡ marks.old.nodes) }
    ensures steps { OnOk result ((cycle : List ℕ) →
        Collects trace.now (rounds_of ranked.now) cycle (IsEdge marks.old) (IsAboveRank trace.now (suc r)) (reverse steps.old.items) →
        Collects trace.now (rounds_of ranked.now) cycle (IsEdge marks.new) (IsAboveRank trace.now r) (reverse steps.new.items)) }
{
    let _rounds = ranked.rounds();
    let edges = ranked.added(r + 1);
    for i in (0..edges.len()).rev() {
        let edge = edges[i];
        collect_edge(
            trace,
            set,
            marks,
            steps,
            edge.from as usize,
            edge.to as usize,
        )?;
    }
    Ok(())
}

/// Adds the steps of the marked base edges, from the last to the first.
fn collect_base(
    trace: &Trace,
    marks: &EdgeRows,
    steps: &mut Vec<CertStep>,
) -> Result<(), OutOfMemory>
    requires nodes { marks.now.nodes ≡ suc (event_total trace.now) }
    ensures steps { OnOk result ((k : ℕ) (cycle : List ℕ) →
        Collects trace.now k cycle (IsEdge marks.now) (IsAboveRank trace.now 0) (reverse steps.old.items) →
        Collects trace.now k cycle (IsEdge marks.now) (IsAboveOrBase trace.now 0 0) (reverse steps.new.items)) }
{
    for u in (0..marks.nodes()).rev() {
        if !marks.has_from(u) {
            continue;
        }
        collect_base_row(trace, marks, steps, u)?;
    }
    Ok(())
}

/// Adds the steps of the marked base edges from `u`, from the last to the first.
fn collect_base_row(
    trace: &Trace,
    marks: &EdgeRows,
    steps: &mut Vec<CertStep>,
    u: usize,
) -> Result<(), OutOfMemory>
    requires nodes { marks.now.nodes ≡ suc (event_total trace.now) }
    requires from { u < marks.now.nodes }
    ensures steps { OnOk result ((k : ℕ) (cycle : List ℕ) →
        Collects trace.now k cycle (IsEdge marks.now) (IsAboveOrBase trace.now (suc u) 0) (reverse steps.old.items) →
        Collects trace.now k cycle (IsEdge marks.now) (IsAboveOrBase trace.now u 0) (reverse steps.new.items)) }
{
    for v in (0..marks.nodes()).rev() {
        if !marks.has(u, v) {
            continue;
        }
        let Some(rule) = base_edge(trace, u, v) else {
            continue;
        };
        steps.push(CertStep {
            from: u as u64,
            to: v as u64,
            reason: Reason::Base(rule),
        })?;
    }
    Ok(())
}
