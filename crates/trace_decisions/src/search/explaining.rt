//! Why a link holds: the rule, the load, and a path over the edges before it.

use crate::search::paths::{EdgesBefore, Path, reached_from, shortest_path};
use tso_cert::InferredRule;
use tso_model::conditions::inferred_ends;

/// The rule that gives a link, for which load, and by which path.
#[derive(Drop)]
pub(crate) struct Explanation {
    pub(crate) rule: InferredRule,
    pub(crate) load: usize,
    pub(crate) path: Path,
}

/// Why an inferred rule gives the edge from `u` to `v` by a path over these edges; None where none does. Of two explanations that
/// with the shorter path.
pub(crate) fn explain(edges: EdgesBefore<'_>, u: usize, v: usize) -> Option<Explanation> {
    let past = load_past(edges, u, v);
    let past = shorter(past, by_rule(edges, InferredRule::StorePast, u, (u, v)));
    let swap = by_rule(edges, InferredRule::SwapBefore, v, (u, v));
    let best = shorter(past, swap);
    let load = u.saturating_sub(1);
    shorter(best, by_rule(edges, InferredRule::SwapAfter, load, (u, v)))
}

/// The one of two explanations that has the shorter path.
fn shorter(first: Option<Explanation>, second: Option<Explanation>) -> Option<Explanation> {
    match (first, second) {
        (Some(one), Some(other)) => {
            if other.path.numbers.len() < one.path.numbers.len() {
                Some(other)
            } else {
                Some(one)
            }
        }
        (Some(one), None) => Some(one),
        (None, other) => other,
    }
}

/// Why this rule gives the edge for this load.
fn by_rule(
    edges: EdgesBefore<'_>,
    rule: InferredRule,
    load: usize,
    edge: (usize, usize),
) -> Option<Explanation> {
    let Some(ends) = inferred_ends(edges.trace, rule, load, edge.0, edge.1) else {
        return None;
    };
    explained(shortest_path(edges, ends.from, ends.to), rule, load)
}

/// The explanation with a path, if there is one.
fn explained(path: Option<Path>, rule: InferredRule, load: usize) -> Option<Explanation> {
    match path {
        Some(path) => Some(Explanation { rule, load, path }),
        None => None,
    }
}

/// Why LoadPast gives the edge: for the nearest load of what `v` wrote.
fn load_past(edges: EdgesBefore<'_>, u: usize, v: usize) -> Option<Explanation> {
    if !edges.trace.is_store(u) {
        return None;
    }
    let reached = reached_from(edges, u, None);
    let rule = InferredRule::LoadPast;
    for load in reached.numbers() {
        if inferred_ends(edges.trace, rule, *load, u, v).is_some() {
            return explained(reached.path_to(*load), rule, *load);
        }
    }
    None
}
