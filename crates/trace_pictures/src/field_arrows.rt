//! The arrows of a cycle whose edges have the names of the field.
ghost use Rattle.std.specs.Prelude.{◌≡◌, ◌∷◌, [], IfOk};
ghost use Rattle.trace_pictures.specs.FieldArrows.{field_arrow, field_arrows, field_links};

use crate::arrows::{Arrow, ArrowName, Mark};
use crate::cycles::LinkedCycle;
use crate::members::are_nodes;
use std::alloc::{AllocError, Global};
use trace_explanation::{NumberedSteps, field_edge};
use tso_ops::Trace;

/// The arrows of the cycle. OutOfMemory where an allocation was refused.
pub(crate) fn list_field_arrows(
    alloc: Global,
    trace: &Trace,
    numbered: &NumberedSteps<'_>,
    nodes: &[usize],
    cycle: &LinkedCycle,
) -> Result<Vec<Arrow>, AllocError>
    ensures { IfOk result (λ arrows. arrows.items ≡ field_arrows trace.now numbered.now nodes.now cycle.now) }
{
    match cycle.numbers() {
        [x, y] => list_both_ways(alloc, trace, numbered, nodes, *x, *y),
        _ => list_field_links(alloc, trace, numbered, nodes, cycle.links()),
    }
}

/// The arrows of a cycle of two, if both numbers have nodes.
fn list_both_ways(
    alloc: Global,
    trace: &Trace,
    numbered: &NumberedSteps<'_>,
    nodes: &[usize],
    x: usize,
    y: usize,
) -> Result<Vec<Arrow>, AllocError>
    ensures { IfOk result (λ arrows. arrows.items ≡ field_arrows trace.now numbered.now nodes.now (x ∷ y ∷ [])) }
{
    let mut arrows = Vec::new(alloc);
    if are_nodes(nodes, x, y) {
        let there = field_arrow(trace, numbered, Mark::BothWays, (x as u64, y as u64));
        let back = field_arrow(trace, numbered, Mark::Back, (y as u64, x as u64));
        arrows.push(there)?;
        arrows.push(back)?;
    }
    Ok(arrows)
}

/// The arrows of these edges whose ends have nodes.
fn list_field_links(
    alloc: Global,
    trace: &Trace,
    numbered: &NumberedSteps<'_>,
    nodes: &[usize],
    links: &[(u64, u64)],
) -> Result<Vec<Arrow>, AllocError>
    ensures { IfOk result (λ arrows. arrows.items ≡ field_links trace.now numbered.now nodes.now links.now) }
{
    let mut arrows = Vec::new(alloc);
    for link in links {
        if are_nodes(nodes, link.0 as usize, link.1 as usize) {
            arrows.push(field_arrow(trace, numbered, Mark::Red, *link))?;
        }
    }
    Ok(arrows)
}

/// An edge with this mark and the name that the field gives it.
fn field_arrow(trace: &Trace, numbered: &NumberedSteps<'_>, mark: Mark, link: (u64, u64)) -> Arrow
    ensures { result ≡ field_arrow trace.now numbered.now mark link }
{
    Arrow {
        mark,
        from: link.0 as usize,
        to: link.1 as usize,
        name: ArrowName::Field(field_edge(trace, numbered, link)),
    }
}
