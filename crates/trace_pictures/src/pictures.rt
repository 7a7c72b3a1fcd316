//! The picture of a trace.
ghost use Rattle.std.specs.Prelude.{◌≡◌, ◌++◌, string_bytes, IfOk, OnOk};
ghost use Rattle.trace_explanation.specs.DiagnosedCycles.{diagnosed_cycle};
ghost use Rattle.trace_pictures.specs.Edges.{cycle_in, steps_in};
ghost use Rattle.trace_pictures.specs.Pictures.{edges_text, field_graph, field_picture, graph_text, layout_text, nodes_text, numbered_picture, picture_of, picture_text, picture_with, rule_graph};

use crate::arrows::{Arrow, list_arrows, list_shown, push_arrows};
use crate::captions::{Caption, caption_of, push_captions};
use crate::choice::choose_events;
use crate::contents::Content;
use crate::cycles::{LinkedCycle, cycle_in, steps_in};
use crate::edge_names::EdgeNames;
use crate::edges::{list_nodes, push_reads};
use crate::field_arrows::list_field_arrows;
use crate::labels::column_width;
use crate::looks::NodeLooks;
use crate::nodes::{push_first_values, push_processors};
use crate::paths::list_orange;
use crate::placed::PlacedTrace;
use std::alloc::{AllocError, Global};
use trace_explanation::{NumberedSteps, diagnosed_cycle};
use tso_cert::Certificate;
use tso_ops::Trace;

/// Appends the picture of a trace: by its certificate, where it is a violation.
///
/// OutOfMemory where an allocation was refused.
pub fn draw(
    alloc: Global,
    text: &mut String,
    trace: &Trace,
    certificate: &Option<Certificate>,
) -> Result<(), AllocError>
    ensures { OnOk result (string_bytes text.new ≡ string_bytes text.old ++ picture_text trace.now certificate.now) }
{
    let caption = caption_of(EdgeNames::Rules, certificate);
    let cycle = cycle_in(certificate);
    let content = Content::new(certificate, cycle, &[], caption, EdgeNames::Rules);
    push_content(alloc, text, trace, &content)
}

/// Appends the picture of a trace with the cycle that the diagnosis of its violation names, and with the names of the field at
/// the cycle's edges, as `po` and `rf`; without a cycle it is the picture that `draw` appends.
///
/// OutOfMemory where an allocation was refused.
pub fn draw_field(
    alloc: Global,
    text: &mut String,
    trace: &Trace,
    certificate: &Option<Certificate>,
) -> Result<(), AllocError>
    ensures { OnOk result (string_bytes text.new ≡ string_bytes text.old ++ field_picture trace.now certificate.now) }
{
    let cycle = field_cycle(alloc, trace, certificate)?;
    let caption = caption_of(EdgeNames::Field, certificate);
    let content = Content::new(certificate, &cycle, &[], caption, EdgeNames::Field);
    push_content(alloc, text, trace, &content)
}

/// The cycle that the diagnosis by a certificate names: empty where it has none.
fn field_cycle(
    alloc: Global,
    trace: &Trace,
    certificate: &Option<Certificate>,
) -> Result<Vec<u64>, AllocError>
    ensures { IfOk result (λ cycle. cycle.items ≡ diagnosed_cycle trace.now (steps_in certificate.now) (cycle_in certificate.now)) }
{
    let numbered = NumberedSteps::new(alloc, steps_in(certificate))?;
    diagnosed_cycle(alloc, trace, &numbered, cycle_in(certificate))
}

/// Appends the picture of a trace without a certificate: with this caption, and, at each drawn event that stands in `order`,
/// with the number of its place there, from 1. Other numbers in `order` change nothing.
///
/// OutOfMemory where an allocation was refused.
pub fn draw_numbered(
    alloc: Global,
    text: &mut String,
    trace: &Trace,
    order: &[u64],
    caption: Caption,
) -> Result<(), AllocError>
    ensures { OnOk result (string_bytes text.new ≡ string_bytes text.old ++ numbered_picture trace.now order.now caption) }
{
    let certificate = None;
    let content = Content::new(&certificate, &[], order, caption, EdgeNames::Rules);
    push_content(alloc, text, trace, &content)
}

/// Appends the picture with this content.
fn push_content(
    alloc: Global,
    text: &mut String,
    trace: &Trace,
    content: &Content<'_>,
) -> Result<(), AllocError>
    ensures { OnOk result (string_bytes text.new ≡ string_bytes text.old ++ picture_with trace.now content.now) }
{
    let placed = PlacedTrace::new(alloc, trace)?;
    let drawn = choose_events(alloc, &placed, content.certificate())?;
    push_picture(alloc, text, &placed, content, &drawn)
}

/// Appends the picture with these drawn events.
#[tactic(auto, unfolding(crate::specs::Pictures::picture_of))]
fn push_picture(
    alloc: Global,
    text: &mut String,
    placed: &PlacedTrace<'_>,
    content: &Content<'_>,
    drawn: &[usize],
) -> Result<(), AllocError>
    ensures { OnOk result (string_bytes text.new ≡ string_bytes text.old ++ picture_of placed.now content.now drawn.now) }
{
    let trace = placed.trace();
    let order = trace.order();
    push_layout(text)?;
    push_captions(
        alloc,
        text,
        order,
        content.caption(),
        drawn.len(),
        trace.events(),
    )?;
    push_graph(alloc, text, placed, content, drawn)?;
    text.push_str("}\n")
}

/// Appends how the picture is laid out.
#[tactic(auto, unfolding(crate::specs::Pictures::layout_text))]
fn push_layout(text: &mut String) -> Result<(), AllocError>
    ensures { OnOk result (string_bytes text.new ≡ string_bytes text.old ++ layout_text) }
{
    text.push_str(
        "digraph trace {\n  graph [layout=neato, inputscale=72, splines=true, outputorder=nodesfirst, fontname=\"Helvetica\", fontsize=12, labelloc=t, labeljust=l];\n  node [shape=box, style=filled, fillcolor=\"#ffffff\", fontname=\"Helvetica\", fontsize=12, height=0.34, width=1.2];\n  edge [arrowsize=0.7];\n",
    )
}

/// Appends the nodes and the edges.
fn push_graph(
    alloc: Global,
    text: &mut String,
    placed: &PlacedTrace<'_>,
    content: &Content<'_>,
    drawn: &[usize],
) -> Result<(), AllocError>
    ensures { OnOk result (string_bytes text.new ≡ string_bytes text.old ++ graph_text placed.now content.now drawn.now) }
{
    match content.edges() {
        EdgeNames::Rules => push_rule_graph(alloc, text, placed, content, drawn),
        EdgeNames::Field => push_field_graph(alloc, text, placed, content, drawn),
    }
}

/// Appends the nodes and the edges, which have the names of rules.
#[tactic(auto, unfolding(crate::specs::Pictures::rule_graph))]
fn push_rule_graph(
    alloc: Global,
    text: &mut String,
    placed: &PlacedTrace<'_>,
    content: &Content<'_>,
    drawn: &[usize],
) -> Result<(), AllocError>
    ensures { OnOk result (string_bytes text.new ≡ string_bytes text.old ++ rule_graph placed.now content.now drawn.now) }
{
    let numbered = NumberedSteps::new(alloc, steps_in(content.certificate()))?;
    let cycle = LinkedCycle::new(alloc, content.cycle())?;
    let nodes = list_nodes(alloc, drawn, &cycle)?;
    let orange = list_orange(alloc, &numbered, &nodes, cycle.links())?;
    let arrows = list_arrows(alloc, &numbered, &nodes, &cycle, &orange)?;
    let shown = list_shown(alloc, &cycle, &orange)?;
    push_nodes(alloc, text, placed, content, drawn, &arrows)?;
    push_edges(alloc, text, placed.trace(), drawn, &shown, &arrows)
}

/// Appends the nodes and the edges, of which those of the cycle have the names of the field.
#[tactic(auto, unfolding(crate::specs::Pictures::field_graph))]
fn push_field_graph(
    alloc: Global,
    text: &mut String,
    placed: &PlacedTrace<'_>,
    content: &Content<'_>,
    drawn: &[usize],
) -> Result<(), AllocError>
    ensures { OnOk result (string_bytes text.new ≡ string_bytes text.old ++ field_graph placed.now content.now drawn.now) }
{
    let numbered = NumberedSteps::new(alloc, steps_in(content.certificate()))?;
    let cycle = LinkedCycle::new(alloc, content.cycle())?;
    let nodes = list_nodes(alloc, drawn, &cycle)?;
    let arrows = list_field_arrows(alloc, placed.trace(), &numbered, &nodes, &cycle)?;
    push_nodes(alloc, text, placed, content, drawn, &arrows)?;
    push_edges(alloc, text, placed.trace(), drawn, cycle.links(), &arrows)
}

/// Appends the nodes, with these arrows.
#[tactic(auto, unfolding(crate::specs::Pictures::nodes_text))]
fn push_nodes(
    alloc: Global,
    text: &mut String,
    placed: &PlacedTrace<'_>,
    content: &Content<'_>,
    drawn: &[usize],
    arrows: &[Arrow],
) -> Result<(), AllocError>
    ensures { OnOk result (string_bytes text.new ≡ string_bytes text.old ++ nodes_text placed.now content.now drawn.now arrows.now) }
{
    let trace = placed.trace();
    let cycle = LinkedCycle::new(alloc, content.cycle())?;
    let looks = NodeLooks::new(alloc, trace, content, arrows)?;
    let width = column_width(alloc, placed, drawn)?;
    push_first_values(
        alloc,
        text,
        &looks,
        width,
        trace.processors(),
        cycle.numbers(),
    )?;
    push_processors(alloc, text, placed, drawn, &looks, width)
}

/// Appends the edges: these arrows, and from stores to loads what isn't among the edges that they show.
#[tactic(auto, unfolding(crate::specs::Pictures::edges_text))]
fn push_edges(
    alloc: Global,
    text: &mut String,
    trace: &Trace,
    drawn: &[usize],
    shown: &[(u64, u64)],
    arrows: &[Arrow],
) -> Result<(), AllocError>
    ensures { OnOk result (string_bytes text.new ≡ string_bytes text.old ++ edges_text trace.now drawn.now shown.now arrows.now) }
{
    push_reads(text, trace, drawn, shown)?;
    push_arrows(alloc, text, arrows)
}
