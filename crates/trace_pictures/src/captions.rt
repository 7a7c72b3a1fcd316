//! What stands above a picture.
ghost use Rattle.std.specs.Prelude.{◌≡◌, ◌++◌, string_bytes, IfOk, OnOk};
ghost use Rattle.trace_pictures.specs.Captions.{caption_of, captions_text, colour_words, cycle_caption, drawn_words, verdict_words};

use crate::edge_names::EdgeNames;
use std::alloc::{AllocError, Global};
use std::fmt::Write;
use trace_explanation::model_name;
use tso_cert::Certificate;
use tso_ops::Order;

/// What the caption of a picture says of its trace.
#[derive(Clone, Copy, Debug, PartialEq, Eq)]
pub enum Caption {
    /// The rules find no violation.
    NoViolation,
    /// A load read a value that nothing wrote.
    Unwritten,
    /// There is a cycle of edges that every order has to keep.
    Cycle,
    /// There is one, whose edges have the names of the field.
    FieldCycle,
    /// The numbers at events are places in an order that the memory model allows.
    Consistent,
    /// A refutation by cases, which the picture doesn't show, says that there is no such order.
    Refuted,
    /// Neither an order nor a refutation was found.
    Undecided,
}

/// The caption of a picture by a certificate, or by none, where edges have these names.
pub(crate) fn caption_of(edges: EdgeNames, certificate: &Option<Certificate>) -> Caption
    ensures { result ≡ caption_of edges certificate.now }
{
    match certificate {
        None => Caption::NoViolation,
        Some(Certificate::Unwritten(_)) => Caption::Unwritten,
        Some(Certificate::Cycle { .. }) => cycle_caption(edges),
    }
}

/// The caption of a picture of a cycle whose edges have these names.
fn cycle_caption(edges: EdgeNames) -> Caption
    ensures { result ≡ cycle_caption edges }
{
    match edges {
        EdgeNames::Rules => Caption::Cycle,
        EdgeNames::Field => Caption::FieldCycle,
    }
}

/// Appends the verdict, how many of the events are drawn, and what the colours say. OutOfMemory where an allocation was
/// refused.
#[tactic(auto, unfolding(crate::specs::Captions::captions_text))]
pub(crate) fn push_captions(
    alloc: Global,
    text: &mut String,
    order: Order,
    caption: Caption,
    drawn: usize,
    events: usize,
) -> Result<(), AllocError>
    ensures { OnOk result (string_bytes text.new ≡ string_bytes text.old ++ captions_text order caption drawn events) }
{
    let model = model_name(order);
    let verdict = verdict_words(caption);
    let count = drawn_words(alloc, drawn, events)?;
    let colours = colour_words(caption);
    write!(
        text,
        "  label=\"{model}{verdict}{count}blue edge: from a store to a load that read it\\lblue box: a load that read the first value of its address\\l{colours}\";\n"
    )
}

/// The verdict, after the name of the memory model.
fn verdict_words(caption: Caption) -> &'static str
    ensures { result.now ≡ verdict_words caption }
{
    match caption {
        Caption::NoViolation => ", no violation found\\l",
        Caption::Unwritten | Caption::Cycle | Caption::FieldCycle => ", violation\\l",
        Caption::Consistent => ", consistent\\l",
        Caption::Refuted =>
            ", violation\\lno memory order explains this trace: explain --decide has the cases\\l",
        Caption::Undecided =>
            ", undecided\\lneither a memory order that explains this trace nor a refutation was found\\l",
    }
}

/// How many of the events are drawn, where not all are.
fn drawn_words(alloc: Global, drawn: usize, events: usize) -> Result<String, AllocError>
    ensures { IfOk result (λ text. string_bytes text ≡ drawn_words drawn events) }
{
    if drawn < events {
        format!(in alloc; "{drawn} of {events} events are drawn\\l")
    } else {
        Ok(String::new(alloc))
    }
}

/// What colours, dashed edges and small lines say, beside the blue ones.
fn colour_words(caption: Caption) -> &'static str
    ensures { result.now ≡ colour_words caption }
{
    match caption {
        Caption::NoViolation | Caption::Refuted | Caption::Undecided => "",
        Caption::Unwritten => "red box: a load of a value that nothing wrote to its address\\l",
        Caption::Cycle =>
            "red: the cycle, each event before the next, and the loads that its edges speak of\\lorange: the paths by which edges of the cycle are inferred, each event before the next\\ldashed: other derived edges, from an event to one that comes later\\lsmall lines in a box: the edges from it, by number and rule of the step in the explanation\\l",
        Caption::FieldCycle =>
            "red: a cycle, each event before the next, and the loads that its edges speak of\\lsmall lines in a box: the edges from it\\lpo: program order; in brackets the barrier or the swap that keeps it\\lrf (reads-from): from a store to a load that read it\\lco (coherence): from a store to a later one at its address\\lfr (from-read): from a load to a store at its address that is later than what it read\\lswap: no other store comes between a swap's load and its store\\l",
        Caption::Consistent =>
            "green number: the place of the event in a memory order that the model allows\\l",
    }
}
