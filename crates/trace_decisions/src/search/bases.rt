//! The base edges that the lines of a refutation use.

use order_graph::EdgeRows;
use search_memory::Memory;
use tso_cert::{CertStep, Reason};
use tso_evidence::RefutationLine;
use tso_ops::Trace;
use tso_rules::base_edge;

/// The steps of the base edges that these lines use, in the order of their numbers.
pub(crate) fn base_lines(
    memory: &Memory,
    trace: &Trace,
    lines: &[RefutationLine],
) -> Vec<RefutationLine> {
    let mut steps = Vec::new(memory.alloc());
    match EdgeRows::new(memory.alloc(), trace.node_count()) {
        Ok(used) => push_used(memory, trace, lines, used, &mut steps),
        Err(_) => memory.note(true),
    }
    steps
}

/// Adds the steps of the base edges that these lines use, for which the rows have room.
fn push_used(
    memory: &Memory,
    trace: &Trace,
    lines: &[RefutationLine],
    rows: EdgeRows,
    steps: &mut Vec<RefutationLine>,
) {
    let mut used = rows;
    for line in lines {
        mark_line(&mut used, line);
    }
    for from in 0..used.nodes() {
        if used.has_from(from) {
            push_bases(memory, trace, &used, steps, from);
        }
    }
}

/// Marks the edges that a line uses: the neighbours in its path or cycle.
fn mark_line(used: &mut EdgeRows, line: &RefutationLine) {
    match line {
        RefutationLine::Step(step) => mark_reason(used, &step.reason),
        RefutationLine::Cycle(cycle) => {
            let numbers = cycle.items();
            mark_path(used, numbers);
            if let Some(first) = numbers.first()
                && let Some(last) = numbers.last()
            {
                mark(used, *last, *first);
            }
        }
        RefutationLine::Case { .. } | RefutationLine::Else { .. } => {}
    }
}

/// Marks the edges of a reason's path.
fn mark_reason(used: &mut EdgeRows, reason: &Reason) {
    if let Reason::Inferred { path, .. } = reason {
        mark_path(used, path.items());
    }
}

/// Marks the neighbours in a path.
fn mark_path(used: &mut EdgeRows, path: &[u64]) {
    for k in 1..path.len() {
        mark(used, path[k - 1], path[k]);
    }
}

/// Marks an edge.
fn mark(used: &mut EdgeRows, from: u64, to: u64) {
    let (from, to) = (from as usize, to as usize);
    if from < used.nodes() && to < used.nodes() {
        used.add(from, to);
    }
}

/// Adds the steps of the used edges from a number that are base edges.
fn push_bases(
    memory: &Memory,
    trace: &Trace,
    used: &EdgeRows,
    steps: &mut Vec<RefutationLine>,
    from: usize,
) {
    for to in 0..used.nodes() {
        if from < used.nodes()
            && used.has(from, to)
            && let Some(rule) = base_edge(trace, from, to)
        {
            let step = CertStep {
                from: from as u64,
                to: to as u64,
                reason: Reason::Base(rule),
            };
            memory.push(steps, RefutationLine::Step(step));
        }
    }
}
