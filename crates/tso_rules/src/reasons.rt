//! Why an edge holds.
ghost use Rattle.std.specs.Prelude.{◌≡◌, ◌↔◌, ◌<◌, ℕ, None, IsTrue, IfOk, MatchOption};
ghost use Rattle.order_graph.specs.Digraphs.{IsEdge};
ghost use Rattle.order_paths.specs.Paths.{Reaches};
ghost use Rattle.tso_model.specs.Rules.{BasePair, InferredBy};
ghost use Rattle.tso_cert.specs.declared.rules.BaseRule.{BaseRule};
ghost use Rattle.tso_model.specs.NewEdges.{IsGivenBy};
ghost use Rattle.tso_cert.specs.declared.rules.InferredRule.{InferredRule};
ghost use Rattle.tso_rules.specs.Rows.{IsJustifiedOver, IsUngiven, IsFirstGiven};
ghost use Rattle.tso_rules.specs.Internal.MarkedRows.{IsPast, IsNextPast, IsPastBy, GivesBy};
ghost use Rattle.tso_rules.specs.declared.reasons.Given.{Given};

use crate::above::first_above;
use crate::base::base_edge;
use order_graph::PathSearch;
use std::alloc::Global;
use tso_cert::{InferredRule, NumList, Reason};
use tso_model::conditions::{Ends, inferred_ends};
use tso_ops::{OutOfMemory, Trace};

/// How an inferred rule gives an edge.
#[derive(Clone, Copy)]
struct Given {
    rule: InferredRule,
    load: usize,
    from: usize,
    to: usize,
}

/// Whether a path leads from one number to the other: none begins or ends past the numbers of the edges.
fn leads<G: PathSearch>(graph: &G, from: usize, to: usize) -> Result<bool, OutOfMemory>
    ensures { IfOk result (λ leads. IsTrue leads ↔ Reaches (IsEdge (G.digraph graph.now)) from to) }
{
    let nodes = graph.nodes();
    if from >= nodes || to >= nodes {
        return Ok(false);
    }
    Ok(graph.reaches(from, to)?)
}

/// How the rule gives the edge from `u` to `v` for load `l` by a path; None where it doesn't.
fn given_for<G: PathSearch>(
    trace: &Trace,
    graph: &G,
    rule: InferredRule,
    l: usize,
    u: usize,
    v: usize,
) -> Result<Option<Given>, OutOfMemory>
    ensures { IfOk result (λ found. MatchOption found (IsGivenBy trace.now rule l (Reaches (IsEdge (G.digraph graph.now))) u v → ⊥)
        (λ g. (g.rule ≡ rule) × (g.load ≡ l) × InferredBy trace.now rule l u v g.from g.to × Reaches (IsEdge (G.digraph graph.now)) g.from g.to)) }
{
    let Some(Ends { from, to }) = inferred_ends(trace, rule, l, u, v) else {
        return Ok(None);
    };
    if !leads(graph, from, to)? {
        return Ok(None);
    }
    Ok(Some(Given {
        rule,
        load: l,
        from,
        to,
    }))
}

/// The least load for which the rule LoadPast gives the edge from `u` to `v`, of the loads in the row, to which paths
/// lead from `u`.
fn least_load_past(trace: &Trace, reached: &[bool], u: usize, v: usize) -> Option<usize>
    ensures { MatchOption result ((l : ℕ) → IsPastBy trace.now reached.now u v l → ⊥)
        (λ load. IsPastBy trace.now reached.now u v load × ((l : ℕ) → l < load → IsPastBy trace.now reached.now u v l → ⊥)) }
{
    for load in 0..reached.len() {
        if reached[load] && inferred_ends(trace, InferredRule::LoadPast, load, u, v).is_some() {
            return Some(load);
        }
    }
    None
}

/// The first load above `n` for which the rule LoadPast gives the edge from `u` to `v` if a path leads to it from `u`: a
/// load of u's address whose source is `v`.
fn next_past(trace: &Trace, u: usize, v: usize, n: usize) -> Option<usize>
    ensures { MatchOption result ((l : ℕ) → n < l → IsPast trace.now u v l → ⊥) (IsNextPast trace.now u v n) }
{
    let _events = trace.events();
    if u == v {
        return None;
    }
    match trace.event(u) {
        Some(event) if !event.load => {
            first_above(trace.load_words(event.a), trace.reader_words(v), &[], n)
        }
        _ => None,
    }
}

/// How the rule LoadPast gives the edge from `u` to `v` for the least load by a path; None where it gives none.
///
/// It searches for more than one path only where several loads read `v` and none leads to the first of them.
fn load_past_given<G: PathSearch>(
    trace: &Trace,
    graph: &G,
    u: usize,
    v: usize,
) -> Result<Option<Given>, OutOfMemory>
    ensures { IfOk result (λ found. MatchOption found ((l : ℕ) → IsGivenBy trace.now InferredRule.LoadPast l (Reaches (IsEdge (G.digraph graph.now))) u v → ⊥)
        (λ g. (g.rule ≡ InferredRule.LoadPast) × GivesBy trace.now (IsEdge (G.digraph graph.now)) u v InferredRule.LoadPast g.load g.from g.to)) }
{
    let Some(first) = next_past(trace, u, v, 0) else {
        return Ok(None);
    };
    if leads(graph, u, first)? {
        return Ok(Some(Given {
            rule: InferredRule::LoadPast,
            load: first,
            from: u,
            to: first,
        }));
    }
    if next_past(trace, u, v, first).is_none() {
        return Ok(None);
    }
    load_past_searched(trace, graph, u, v)
}

/// The same, by a search for all numbers that paths lead to from `u`.
fn load_past_searched<G: PathSearch>(
    trace: &Trace,
    graph: &G,
    u: usize,
    v: usize,
) -> Result<Option<Given>, OutOfMemory>
    ensures { IfOk result (λ found. MatchOption found ((l : ℕ) → IsGivenBy trace.now InferredRule.LoadPast l (Reaches (IsEdge (G.digraph graph.now))) u v → ⊥)
        (λ g. (g.rule ≡ InferredRule.LoadPast) × GivesBy trace.now (IsEdge (G.digraph graph.now)) u v InferredRule.LoadPast g.load g.from g.to)) }
{
    if u >= graph.nodes() || !trace.is_store(u) {
        return Ok(None);
    }
    let reached = graph.reached(u)?;
    let Some(load) = least_load_past(trace, &reached, u, v) else {
        return Ok(None);
    };
    Ok(Some(Given {
        rule: InferredRule::LoadPast,
        load,
        from: u,
        to: load,
    }))
}

/// How the rule gives the edge from `u` to `v` for the least load by a path; None where it gives none. Each rule but
/// LoadPast can give it for one load alone.
fn least_given<G: PathSearch>(
    trace: &Trace,
    graph: &G,
    rule: InferredRule,
    u: usize,
    v: usize,
) -> Result<Option<Given>, OutOfMemory>
    ensures { IfOk result (λ found. MatchOption found ((l : ℕ) → IsGivenBy trace.now rule l (Reaches (IsEdge (G.digraph graph.now))) u v → ⊥)
        (λ g. (g.rule ≡ rule) × GivesBy trace.now (IsEdge (G.digraph graph.now)) u v rule g.load g.from g.to)) }
{
    match rule {
        InferredRule::LoadPast => load_past_given(trace, graph, u, v),
        InferredRule::StorePast => given_for(trace, graph, rule, u, u, v),
        InferredRule::SwapBefore => given_for(trace, graph, rule, v, u, v),
        InferredRule::SwapAfter => match u.checked_sub(1) {
            Some(l) => given_for(trace, graph, rule, l, u, v),
            None => Ok(None),
        },
    }
}

/// How an inferred rule gives the edge from `u` to `v` by a path: the first rule that does, for the least load; None
/// where none gives it.
fn first_given<G: PathSearch>(
    trace: &Trace,
    graph: &G,
    u: usize,
    v: usize,
) -> Result<Option<Given>, OutOfMemory>
    ensures { IfOk result (λ found. MatchOption found ((rule : InferredRule) (l : ℕ) →
        IsGivenBy trace.now rule l (Reaches (IsEdge (G.digraph graph.now))) u v → ⊥)
        (λ g. GivesBy trace.now (IsEdge (G.digraph graph.now)) u v g.rule g.load g.from g.to ×
        IsFirstGiven trace.now (IsEdge (G.digraph graph.now)) u v g.rule g.load)) }
{
    if let Some(given) = least_given(trace, graph, InferredRule::LoadPast, u, v)? {
        return Ok(Some(given));
    }
    if let Some(given) = least_given(trace, graph, InferredRule::StorePast, u, v)? {
        return Ok(Some(given));
    }
    if let Some(given) = least_given(trace, graph, InferredRule::SwapBefore, u, v)? {
        return Ok(Some(given));
    }
    if let Some(given) = least_given(trace, graph, InferredRule::SwapAfter, u, v)? {
        return Ok(Some(given));
    }
    Ok(None)
}

/// Why an inferred rule gives the edge from `u` to `v`; None where none gives it by a path.
fn inferred_reason<G: PathSearch>(
    alloc: Global,
    trace: &Trace,
    graph: &G,
    u: usize,
    v: usize,
) -> Result<Option<Reason>, OutOfMemory>
    requires { (base : BaseRule) → BasePair trace.now base u v → ⊥ }
    ensures { IfOk result (λ found. MatchOption found (IsUngiven trace.now (IsEdge (G.digraph graph.now)) u v)
        (IsJustifiedOver trace.now (IsEdge (G.digraph graph.now)) u v)) }
{
    let _nodes = graph.nodes();
    let Some(given) = first_given(trace, graph, u, v)? else {
        return Ok(None);
    };
    let Some(path) = graph.least_path(given.from, given.to)? else {
        unreachable!()
    };
    Ok(Some(Reason::Inferred {
        rule: given.rule,
        load: given.load as u64,
        path: NumList::from_numbers(alloc, &path)?,
    }))
}

/// The justification of an edge from `u` to `v` that is new over the edges of `graph`, a `Graph` or an `EdgeSet`: the
/// first base rule that gives it; else the first inferred rule that does by a path over these edges, then the least load,
/// then the least path. None where no rule gives it. OutOfMemory where an allocation was refused.
///
/// It takes a search for each inferred rule at most, and one more where several loads read `v`; one walk over the loads
/// then; and the least path. Over an `EdgeSet` a search is left out where an edge or the tables of paths answer.
pub fn justify<G: PathSearch>(
    alloc: Global,
    trace: &Trace,
    graph: &G,
    u: usize,
    v: usize,
) -> Result<Option<Reason>, OutOfMemory>
    ensures { IfOk result (λ found. MatchOption found (IsUngiven trace.now (IsEdge (G.digraph graph.now)) u v)
        (IsJustifiedOver trace.now (IsEdge (G.digraph graph.now)) u v)) }
{
    match base_edge(trace, u, v) {
        Some(rule) => Ok(Some(Reason::Base(rule))),
        None => inferred_reason(alloc, trace, graph, u, v),
    }
}
