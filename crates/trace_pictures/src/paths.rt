//! The paths by which edges of a cycle are inferred.
ghost use Rattle.std.specs.Prelude.{◌≡◌, ◌++◌, ◌-◌, length, take, IfOk, OnOk};
ghost use Rattle.trace_pictures.specs.Paths.{link_path, orange_links, path_numbers, path_of, with_orange, with_path};

use crate::members::is_beside;
use std::alloc::{AllocError, Global};
use trace_explanation::{NumberedSteps, list_links};
use tso_cert::Reason;

/// Pushes the numbers of the paths of these edges. OutOfMemory where an allocation was refused.
pub(crate) fn push_path_numbers(
    numbers: &mut Vec<usize>,
    numbered: &NumberedSteps<'_>,
    links: &[(u64, u64)],
) -> Result<(), AllocError>
    ensures { OnOk result (numbers.new.items ≡ numbers.old.items ++ path_numbers numbered.now links.now) }
{
    for link in links {
        push_numbers(numbers, link_path(numbered, *link))?;
    }
    Ok(())
}

/// Pushes these numbers. OutOfMemory where an allocation was refused.
pub(crate) fn push_numbers(numbers: &mut Vec<usize>, more: &[u64]) -> Result<(), AllocError>
    ensures { OnOk result (numbers.new.items ≡ numbers.old.items ++ more.now) }
{
    for n in more {
        numbers.push(*n as usize)?;
    }
    Ok(())
}

/// The orange edges, by the edges of the cycle. OutOfMemory where an allocation was refused.
pub(crate) fn list_orange(
    alloc: Global,
    numbered: &NumberedSteps<'_>,
    nodes: &[usize],
    links: &[(u64, u64)],
) -> Result<Vec<(u64, u64)>, AllocError>
    ensures { IfOk result (λ orange. orange.items ≡ orange_links numbered.now nodes.now links.now) }
{
    let mut orange = Vec::new(alloc);
    for link in links {
        push_path(alloc, &mut orange, numbered, nodes, links, *link)?;
    }
    Ok(orange)
}

/// Makes the edges of the path of an edge of the cycle orange too.
fn push_path(
    alloc: Global,
    orange: &mut Vec<(u64, u64)>,
    numbered: &NumberedSteps<'_>,
    nodes: &[usize],
    links: &[(u64, u64)],
    link: (u64, u64),
) -> Result<(), AllocError>
    ensures { OnOk result (orange.new.items ≡ with_path numbered.now nodes.now links.now orange.old.items link) }
{
    let round = list_links(alloc, link_path(numbered, link))?;
    for edge in path_links(&round) {
        push_orange(orange, nodes, links, *edge)?;
    }
    Ok(())
}

/// The edges of a path, of those of the cycle through its numbers.
fn path_links(round: &[(u64, u64)]) -> &[(u64, u64)]
    ensures { result.now ≡ take (length round.now - 1) round.now }
{
    &round[..round.len().saturating_sub(1)]
}

/// Makes an edge orange too, if both ends have nodes and it is neither one of these of the cycle nor orange already.
fn push_orange(
    orange: &mut Vec<(u64, u64)>,
    nodes: &[usize],
    links: &[(u64, u64)],
    edge: (u64, u64),
) -> Result<(), AllocError>
    ensures { OnOk result (orange.new.items ≡ with_orange nodes.now links.now orange.old.items edge) }
{
    let (u, v) = (edge.0 as usize, edge.1 as usize);
    if is_beside(nodes, links, u, v) && is_beside(nodes, orange, u, v) {
        orange.push(edge)?;
    }
    Ok(())
}

/// The path of the first step that is an edge: empty where there is none, or it isn't inferred.
fn link_path<'s>(numbered: &NumberedSteps<'s>, link: (u64, u64)) -> &'s [u64]
    ensures { result.now ≡ link_path numbered.now link }
{
    match numbered.step(link.0, link.1) {
        Some(step) => path_of(&step.reason),
        None => &[],
    }
}

/// The path of a step: empty where it isn't inferred.
fn path_of(reason: &Reason) -> &[u64]
    ensures { result.now ≡ path_of reason.now }
{
    match reason {
        Reason::Base(_) => &[],
        Reason::Inferred { path, .. } => path.items(),
    }
}
