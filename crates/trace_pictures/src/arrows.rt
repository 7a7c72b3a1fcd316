//! The arrows of a picture: its edges that are steps of the certificate, or the cycle's.
ghost use Rattle.std.specs.Prelude.{◌≡◌, ◌++◌, [], ◌∷◌, length, map, string_bytes, IfOk, OnOk};
ghost use Rattle.std.specs.List.{filter, flat_map, range_with_len};
ghost use Rattle.std.specs.Option.{option_to_list};
ghost use Rattle.trace_explanation.specs.Steps.{links_of};
ghost use Rattle.trace_pictures.specs.Arrows.{arrow_along, arrow_line, arrows_of, dashed_arrow, dashed_arrows, has_line, is_dashed, is_derived, last_forty, mark_attributes, red_arrows, red_links};

use crate::cycles::LinkedCycle;
use crate::edges::node_name;
use crate::members::{are_nodes, is_beside};
use std::alloc::{AllocError, Global};
use std::fmt::Write;
use trace_explanation::{FieldEdge, NumberedSteps};
use tso_cert::{BaseRule, CertStep, Reason};

/// How many dashed arrows there are at most.
const DASHED_ARROWS: usize = 40;

/// What an arrow is.
#[derive(Clone, Copy, Debug, PartialEq, Eq)]
pub enum Mark {
    /// An edge of the cycle.
    Red,
    /// The edge there of a cycle of two, whose line has two heads.
    BothWays,
    /// The edge back of a cycle of two, which has no line of its own.
    Back,
    /// An edge of a path by which an edge of the cycle is inferred.
    Orange,
    /// Another derived edge.
    Dashed,
}

/// By which name the box that an arrow leaves speaks of it.
#[derive(Clone, Copy, Debug, PartialEq, Eq)]
pub enum ArrowName {
    /// By the step of this number: 0 where no step is this edge.
    Step(usize),
    /// By what the field calls it.
    Field(FieldEdge),
}

/// An edge of a picture, and its name.
#[derive(Clone, Copy, Debug, PartialEq, Eq)]
pub struct Arrow {
    pub mark: Mark,
    pub from: usize,
    pub to: usize,
    pub name: ArrowName,
}

/// All arrows, by the cycle and the orange edges, which are to be `shown` together. OutOfMemory where an allocation was refused.
#[tactic(auto, unfolding(crate::specs::Arrows::arrows_of))]
pub(crate) fn list_arrows(
    alloc: Global,
    numbered: &NumberedSteps<'_>,
    nodes: &[usize],
    cycle: &LinkedCycle,
    orange: &[(u64, u64)],
) -> Result<Vec<Arrow>, AllocError>
    ensures { IfOk result (λ arrows. arrows.items ≡ arrows_of numbered.now nodes.now cycle.now orange.now) }
{
    let mut arrows = Vec::new(alloc);
    push_red(&mut arrows, numbered, nodes, cycle)?;
    push_along(&mut arrows, numbered, Mark::Orange, orange)?;
    let shown = list_shown(alloc, cycle, orange)?;
    push_dashed(alloc, &mut arrows, numbered.steps(), nodes, &shown)?;
    Ok(arrows)
}

/// The edges of the cycle and the orange ones. OutOfMemory where an allocation was refused.
pub(crate) fn list_shown(
    alloc: Global,
    cycle: &LinkedCycle,
    orange: &[(u64, u64)],
) -> Result<Vec<(u64, u64)>, AllocError>
    ensures { IfOk result (λ shown. shown.items ≡ links_of cycle.now ++ orange.now) }
{
    let mut shown = Vec::new(alloc);
    shown.extend_from_slice(cycle.links())?;
    shown.extend_from_slice(orange)?;
    Ok(shown)
}

/// Pushes the arrows of the cycle.
fn push_red(
    arrows: &mut Vec<Arrow>,
    numbered: &NumberedSteps<'_>,
    nodes: &[usize],
    cycle: &LinkedCycle,
) -> Result<(), AllocError>
    ensures { OnOk result (arrows.new.items ≡ arrows.old.items ++ red_arrows numbered.now nodes.now cycle.now) }
{
    match cycle.numbers() {
        [x, y] => push_both_ways(arrows, numbered, nodes, *x, *y),
        _ => push_links(arrows, numbered, nodes, cycle.links()),
    }
}

/// Pushes the arrows of a cycle of two, if both numbers have nodes.
fn push_both_ways(
    arrows: &mut Vec<Arrow>,
    numbered: &NumberedSteps<'_>,
    nodes: &[usize],
    x: usize,
    y: usize,
) -> Result<(), AllocError>
    ensures { OnOk result (arrows.new.items ≡ arrows.old.items ++ red_arrows numbered.now nodes.now (x ∷ y ∷ [])) }
{
    if are_nodes(nodes, x, y) {
        arrows.push(arrow_along(numbered, Mark::BothWays, (x as u64, y as u64)))?;
        arrows.push(arrow_along(numbered, Mark::Back, (y as u64, x as u64)))?;
    }
    Ok(())
}

/// Pushes the arrows of these edges of the cycle.
fn push_links(
    arrows: &mut Vec<Arrow>,
    numbered: &NumberedSteps<'_>,
    nodes: &[usize],
    links: &[(u64, u64)],
) -> Result<(), AllocError>
    ensures { OnOk result (arrows.new.items ≡ arrows.old.items ++ red_links numbered.now nodes.now links.now) }
{
    for link in links {
        if are_nodes(nodes, link.0 as usize, link.1 as usize) {
            arrows.push(arrow_along(numbered, Mark::Red, *link))?;
        }
    }
    Ok(())
}

/// Pushes these edges with this mark.
fn push_along(
    arrows: &mut Vec<Arrow>,
    numbered: &NumberedSteps<'_>,
    mark: Mark,
    links: &[(u64, u64)],
) -> Result<(), AllocError>
    ensures { OnOk result (arrows.new.items ≡ arrows.old.items ++ map (arrow_along numbered.now mark) links.now) }
{
    for link in links {
        arrows.push(arrow_along(numbered, mark, *link))?;
    }
    Ok(())
}

/// An edge with this mark, by the first step that is this edge.
fn arrow_along(numbered: &NumberedSteps<'_>, mark: Mark, link: (u64, u64)) -> Arrow
    ensures { result ≡ arrow_along numbered.now mark link }
{
    Arrow {
        mark,
        from: link.0 as usize,
        to: link.1 as usize,
        name: ArrowName::Step(numbered.number(link.0, link.1)),
    }
}

/// Pushes the last dashed arrows, which are none of these edges.
fn push_dashed(
    alloc: Global,
    arrows: &mut Vec<Arrow>,
    steps: &[CertStep],
    nodes: &[usize],
    shown: &[(u64, u64)],
) -> Result<(), AllocError>
    ensures { OnOk result (arrows.new.items ≡ arrows.old.items ++ dashed_arrows steps.now nodes.now shown.now) }
{
    let places = list_dashed(alloc, steps, nodes, shown)?;
    let last = last_forty(&places);
    for k in last {
        push_listed_arrow(arrows, dashed_arrow(steps, *k))?;
    }
    Ok(())
}

/// The last 40 of these.
fn last_forty(places: &[usize]) -> &[usize]
    ensures { result.now ≡ last_forty places.now }
{
    &places[places.len().saturating_sub(DASHED_ARROWS)..]
}

/// The places of the steps that have dashed arrows.
fn list_dashed(
    alloc: Global,
    steps: &[CertStep],
    nodes: &[usize],
    shown: &[(u64, u64)],
) -> Result<Vec<usize>, AllocError>
    ensures { IfOk result (λ places. places.items ≡ filter (is_dashed steps.now nodes.now shown.now) (range_with_len 0 (length steps.now))) }
{
    let mut places = Vec::new(alloc);
    for k in 0..steps.len() {
        if is_dashed(steps, nodes, shown, k) {
            places.push(k)?;
        }
    }
    Ok(places)
}

/// Whether the step at a place has a dashed arrow: it is derived, its ends have nodes, and it is none of these edges.
fn is_dashed(steps: &[CertStep], nodes: &[usize], shown: &[(u64, u64)], k: usize) -> bool
    ensures { result ≡ is_dashed steps.now nodes.now shown.now k }
{
    match steps.get(k) {
        Some(step) => {
            is_derived(&step.reason)
                && is_beside(nodes, shown, step.from as usize, step.to as usize)
        },
        None => false,
    }
}

/// Whether the rule derives an edge from what loads read.
fn is_derived(reason: &Reason) -> bool
    ensures { result ≡ is_derived reason.now }
{
    match reason {
        Reason::Base(BaseRule::Own) => true,
        Reason::Base(_) => false,
        Reason::Inferred { .. } => true,
    }
}

/// The arrow of the step at a place: None where there is no step.
fn dashed_arrow(steps: &[CertStep], k: usize) -> Option<Arrow>
    ensures { option_to_list result ≡ dashed_arrow steps.now k }
{
    match steps.get(k) {
        Some(step) => Some(Arrow {
            mark: Mark::Dashed,
            from: step.from as usize,
            to: step.to as usize,
            name: ArrowName::Step(k + 1),
        }),
        None => None,
    }
}

/// Pushes the arrow, if there is one.
fn push_listed_arrow(arrows: &mut Vec<Arrow>, arrow: Option<Arrow>) -> Result<(), AllocError>
    ensures { OnOk result (arrows.new.items ≡ arrows.old.items ++ option_to_list arrow) }
{
    match arrow {
        Some(arrow) => arrows.push(arrow)?,
        None => {},
    }
    Ok(())
}

/// Appends the lines of these arrows. OutOfMemory where an allocation was refused.
pub(crate) fn push_arrows(
    alloc: Global,
    text: &mut String,
    arrows: &[Arrow],
) -> Result<(), AllocError>
    ensures { OnOk result (string_bytes text.new ≡ string_bytes text.old ++ flat_map arrow_line arrows.now) }
{
    for arrow in arrows {
        push_arrow(alloc, text, *arrow)?;
    }
    Ok(())
}

/// Appends the line of an arrow, if it has one.
#[tactic(auto, unfolding(crate::specs::Arrows::arrow_line))]
fn push_arrow(alloc: Global, text: &mut String, arrow: Arrow) -> Result<(), AllocError>
    ensures { OnOk result (string_bytes text.new ≡ string_bytes text.old ++ arrow_line arrow) }
{
    if !has_line(arrow.mark) {
        return Ok(());
    }
    let from = node_name(alloc, arrow.from)?;
    let to = node_name(alloc, arrow.to)?;
    let attributes = mark_attributes(arrow.mark);
    write!(text, "  {from} -> {to} [{attributes}];\n")
}

/// Whether an arrow with this mark has a line of its own.
fn has_line(mark: Mark) -> bool
    ensures { result ≡ has_line mark }
{
    match mark {
        Mark::Back => false,
        Mark::Red | Mark::BothWays | Mark::Orange | Mark::Dashed => true,
    }
}

/// What the line of an arrow with this mark looks like.
fn mark_attributes(mark: Mark) -> &'static str
    ensures { result.now ≡ mark_attributes mark }
{
    match mark {
        Mark::Red => "color=\"#c00000\", penwidth=2.5",
        Mark::BothWays => "color=\"#c00000\", penwidth=2.5, dir=both",
        Mark::Back => "",
        Mark::Orange => "color=\"#e07b00\", penwidth=2",
        Mark::Dashed => "color=\"#606060\", style=dashed",
    }
}
