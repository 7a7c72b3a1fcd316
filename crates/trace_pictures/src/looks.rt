//! What the nodes of a picture show beside the trace.
ghost use Rattle.std.specs.Prelude.{◌≡◌, IfOk};
ghost use Rattle.trace_explanation.specs.Steps.{links_of};
ghost use Rattle.trace_pictures.specs.Paths.{path_numbers};
ghost use Rattle.trace_pictures.specs.Pictures.{looks_of, orange_numbers};

use crate::arrows::Arrow;
use crate::contents::Content;
use crate::cycles::{list_red, steps_in};
use crate::edge_names::EdgeNames;
use crate::paths::push_path_numbers;
use std::alloc::{AllocError, Global};
use std::marker::Model;
use trace_explanation::{NumberedSteps, list_links};
use tso_cert::CertStep;
use tso_ops::Trace;

/// The steps of a certificate, the arrows, which numbers are red and orange, and an order in which events have numbers.
#[derive(Debug, Drop)]
pub(crate) struct NodeLooks<'s> {
    steps: &'s [CertStep],
    arrows: &'s [Arrow],
    red: Vec<usize>,
    orange: Vec<usize>,
    order: &'s [u64],
}

impl<'s> Model for NodeLooks<'s> {
    ghost use Rattle.trace_pictures.specs.Nodes.{Looks};

    ghost Value = { Looks };

    ghost view = { λ l. record { steps = l.steps.now; arrows = l.arrows.now; red = l.red.items; orange = l.orange.items; order = l.order.now } };
}

impl<'s> NodeLooks<'s> {
    /// What the nodes show of this content with these arrows, or OutOfMemory where an allocation was refused.
    pub(crate) fn new(
        alloc: Global,
        trace: &Trace,
        content: &Content<'s>,
        arrows: &'s [Arrow],
    ) -> Result<NodeLooks<'s>, AllocError>
        ensures { IfOk result (λ looks. looks ≡ looks_of trace.now content.now arrows.now) }
    {
        let red = list_red(alloc, trace, content.certificate(), content.cycle())?;
        let orange = list_orange_numbers(alloc, content)?;
        Ok(NodeLooks {
            steps: steps_in(content.certificate()),
            arrows,
            red,
            orange,
            order: content.order(),
        })
    }

    /// The steps.
    pub(crate) fn steps(&self) -> &'s [CertStep]
        ensures { result.now ≡ self.now.steps }
    {
        self.steps
    }

    /// The arrows.
    pub(crate) fn arrows(&self) -> &'s [Arrow]
        ensures { result.now ≡ self.now.arrows }
    {
        self.arrows
    }

    /// The numbers that have a red border.
    pub(crate) fn red(&self) -> &[usize]
        ensures { result.now ≡ self.now.red }
    {
        &self.red
    }

    /// The numbers that have an orange border where they have no red one.
    pub(crate) fn orange(&self) -> &[usize]
        ensures { result.now ≡ self.now.orange }
    {
        &self.orange
    }

    /// The order in which events have numbers.
    pub(crate) fn order(&self) -> &'s [u64]
        ensures { result.now ≡ self.now.order }
    {
        self.order
    }
}

/// The numbers of the paths of the cycle's edges, where these have the names of rules. OutOfMemory where an allocation was
/// refused.
fn list_orange_numbers(alloc: Global, content: &Content<'_>) -> Result<Vec<usize>, AllocError>
    ensures { IfOk result (λ orange. orange.items ≡ orange_numbers content.now) }
{
    match content.edges() {
        EdgeNames::Rules => {
            list_path_numbers(alloc, steps_in(content.certificate()), content.cycle())
        },
        EdgeNames::Field => Ok(Vec::new(alloc)),
    }
}

/// The numbers of the paths of the cycle's edges. OutOfMemory where an allocation was refused.
fn list_path_numbers(
    alloc: Global,
    steps: &[CertStep],
    cycle: &[u64],
) -> Result<Vec<usize>, AllocError>
    ensures { IfOk result (λ orange. orange.items ≡ path_numbers steps.now (links_of cycle.now)) }
{
    let numbered = NumberedSteps::new(alloc, steps)?;
    let links = list_links(alloc, cycle)?;
    let mut orange = Vec::new(alloc);
    push_path_numbers(&mut orange, &numbered, &links)?;
    Ok(orange)
}
