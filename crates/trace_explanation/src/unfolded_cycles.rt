//! The cycle of a certificate, unfolded, and walks around it.
ghost use Rattle.std.specs.Prelude.{◌≡◌, ◌++◌, ◌∷◌, [], drop, get_or, position, IfOk, OnOk};
ghost use Rattle.std.specs.Option.{option_copied, option_map, option_map_or};
ghost use Rattle.trace_explanation.specs.UnfoldedCycles.{has_kind, is_link, is_of_kind, link_numbers, missed_walk, reason_numbers, turned, unfolded_cycle, unfolded_numbers, walk_by, without_last};

use crate::links::list_links;
use crate::numbers::NumberedSteps;
use crate::prefixes::first_of;
use std::alloc::{AllocError, Global};
use tso_cert::{BaseRule, CertStep, InferredRule, Reason};

/// A kind of edges of a cycle.
#[derive(Clone, Copy, Debug, PartialEq, Eq)]
pub enum EdgeKind {
    /// From a load to a store that is later than what it read: of the rule StorePast.
    FromRead,
    /// From a store that a load sees, since it is earlier on its own processor, to what the load read: of the rule Own.
    MissedOwn,
    /// From a store that a load sees to what the load read: of the rules Own and LoadPast.
    Missed,
    /// From a store to a load that read it: of the rule Read.
    ReadFrom,
}

/// The cycle, with the paths that some of its edges rest on. OutOfMemory where an allocation was refused.
#[tactic(auto, unfolding(crate::specs::UnfoldedCycles::unfolded_cycle))]
pub(crate) fn unfolded_cycle(
    alloc: Global,
    numbered: &NumberedSteps<'_>,
    cycle: &[u64],
) -> Result<Vec<u64>, AllocError>
    ensures { IfOk result (λ numbers. numbers.items ≡ unfolded_cycle numbered.now cycle.now) }
{
    let links = list_links(alloc, cycle)?;
    let mut numbers = Vec::new(alloc);
    for link in &links {
        push_link(&mut numbers, &links, numbered, *link)?;
    }
    Ok(numbers)
}

/// Pushes what stands for an edge of the cycle, up to the number that it leads to.
fn push_link(
    numbers: &mut Vec<u64>,
    links: &[(u64, u64)],
    numbered: &NumberedSteps<'_>,
    link: (u64, u64),
) -> Result<(), AllocError>
    ensures { OnOk result (numbers.new.items ≡ numbers.old.items ++ link_numbers links.now numbered.now link) }
{
    push_numbers(numbers, links, link.0, numbered.step(link.0, link.1))
}

/// Pushes what stands for number `u` of the cycle and its edge.
fn push_numbers(
    numbers: &mut Vec<u64>,
    links: &[(u64, u64)],
    u: u64,
    step: Option<&CertStep>,
) -> Result<(), AllocError>
    ensures { OnOk result (numbers.new.items ≡ numbers.old.items ++ option_map_or (λ s. reason_numbers links.now u s.reason) (option_copied step.entry)
        (u ∷ [])) }
{
    match step {
        Some(step) => match &step.reason {
            Reason::Inferred { rule, path, .. } => {
                push_path(numbers, links, u, *rule, path.items())
            }
            Reason::Base(_) => Ok(numbers.push(u)?),
        },
        None => Ok(numbers.push(u)?),
    }
}

/// Pushes what stands for number `u` of the cycle and its inferred edge, which has this path.
#[tactic(auto, unfolding(crate::specs::UnfoldedCycles::unfolded_numbers))]
fn push_path(
    numbers: &mut Vec<u64>,
    links: &[(u64, u64)],
    u: u64,
    rule: InferredRule,
    path: &[u64],
) -> Result<(), AllocError>
    ensures { OnOk result (numbers.new.items ≡ numbers.old.items ++ unfolded_numbers links.now u rule path.now) }
{
    match rule {
        InferredRule::LoadPast => Ok(numbers.push(u)?),
        InferredRule::StorePast if is_link(links, item(path, 0), u) => {
            Ok(numbers.extend_from_slice(from_place(without_last(path), 1))?)
        }
        InferredRule::StorePast => Ok(numbers.push(u)?),
        InferredRule::SwapBefore => Ok(numbers.extend_from_slice(path)?),
        InferredRule::SwapAfter => {
            numbers.push(u)?;
            Ok(numbers.extend_from_slice(without_last(path))?)
        }
    }
}

/// Whether the edge from `u` to `v` is one of these.
pub fn is_link(links: &[(u64, u64)], u: u64, v: u64) -> bool
    ensures { result ≡ is_link links.now u v }
{
    for link in links {
        if link.0 == u && link.1 == v {
            return true;
        }
    }
    false
}

/// The number at a place: 0 where there is none.
pub(crate) fn item(numbers: &[u64], place: usize) -> u64
    ensures { result ≡ get_or numbers.now place 0 }
{
    match numbers.get(place) {
        Some(number) => *number,
        None => 0,
    }
}

/// The numbers but for the last.
fn without_last(path: &[u64]) -> &[u64]
    ensures { result.now ≡ without_last path.now }
{
    first_of(path, path.len().saturating_sub(1))
}

/// The numbers from a place on.
fn from_place(numbers: &[u64], place: usize) -> &[u64]
    ensures { result.now ≡ drop place numbers.now }
{
    if place < numbers.len() {
        &numbers[place..]
    } else {
        &[]
    }
}

/// The cycle from the end of its first edge of a kind around to the beginning of that edge: None where it has no such edge.
/// OutOfMemory where an allocation was refused.
#[tactic(auto, unfolding(crate::specs::UnfoldedCycles::walk_by))]
pub(crate) fn walk_by(
    alloc: Global,
    numbered: &NumberedSteps<'_>,
    kind: EdgeKind,
    cycle: &[u64],
) -> Result<Option<Vec<u64>>, AllocError>
    ensures { IfOk result (λ walk. option_map (λ w. w.items) walk ≡ walk_by numbered.now kind cycle.now) }
{
    let links = list_links(alloc, cycle)?;
    match first_of_kind(numbered, kind, &links) {
        Some(place) => Ok(Some(turned(alloc, cycle, place.saturating_add(1))?)),
        None => Ok(None),
    }
}

/// The same by an edge from a store that a load sees to what it read: if there is one of an own store, by that. OutOfMemory where
/// an allocation was refused.
pub(crate) fn missed_walk(
    alloc: Global,
    numbered: &NumberedSteps<'_>,
    cycle: &[u64],
) -> Result<Option<Vec<u64>>, AllocError>
    ensures { IfOk result (λ walk. option_map (λ w. w.items) walk ≡ missed_walk numbered.now cycle.now) }
{
    match walk_by(alloc, numbered, EdgeKind::MissedOwn, cycle)? {
        Some(walk) => Ok(Some(walk)),
        None => walk_by(alloc, numbered, EdgeKind::Missed, cycle),
    }
}

/// The place of the first of these edges that has this kind.
fn first_of_kind(
    numbered: &NumberedSteps<'_>,
    kind: EdgeKind,
    links: &[(u64, u64)],
) -> Option<usize>
    ensures { result ≡ position (has_kind numbered.now kind) links.now }
{
    links
        .iter()
        .position(|link| has_kind(numbered, kind, *link))
}

/// Whether an edge of the cycle has this kind.
fn has_kind(numbered: &NumberedSteps<'_>, kind: EdgeKind, link: (u64, u64)) -> bool
    ensures { result ≡ has_kind numbered.now kind link }
{
    match numbered.step(link.0, link.1) {
        Some(step) => is_of_kind(kind, &step.reason),
        None => false,
    }
}

/// Whether a rule gives edges of this kind.
fn is_of_kind(kind: EdgeKind, reason: &Reason) -> bool
    ensures { result ≡ is_of_kind kind reason.now }
{
    match (kind, reason) {
        (EdgeKind::FromRead, Reason::Inferred { rule, .. }) => *rule == InferredRule::StorePast,
        (EdgeKind::MissedOwn, Reason::Base(rule)) => *rule == BaseRule::Own,
        (EdgeKind::Missed, Reason::Inferred { rule, .. }) => *rule == InferredRule::LoadPast,
        (EdgeKind::Missed, Reason::Base(rule)) => *rule == BaseRule::Own,
        (EdgeKind::ReadFrom, Reason::Base(rule)) => *rule == BaseRule::Read,
        _ => false,
    }
}

/// The numbers of a cycle from a place on, and then those before it.
fn turned(alloc: Global, cycle: &[u64], place: usize) -> Result<Vec<u64>, AllocError>
    ensures { IfOk result (λ walk. walk.items ≡ turned cycle.now place) }
{
    let mut walk = Vec::from_slice(alloc, from_place(cycle, place))?;
    walk.extend_from_slice(first_of(cycle, place))?;
    Ok(walk)
}
