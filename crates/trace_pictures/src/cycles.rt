//! The cycle of a certificate, its steps, and what is red.
ghost use Rattle.std.specs.Prelude.{◌≡◌, ◌++◌, IfOk, OnOk};
ghost use Rattle.std.specs.List.{flat_map};
ghost use Rattle.std.specs.Option.{option_to_list};
ghost use Rattle.trace_explanation.specs.Steps.{links_of};
ghost use Rattle.trace_pictures.specs.Edges.{cycle_in, link_load, red_numbers, steps_in};

use crate::wanted::{list_cycle, push_listed};
use std::alloc::{AllocError, Global};
use std::marker::Model;
use trace_explanation::{NumberedSteps, list_links, step_load};
use tso_cert::{CertStep, Certificate};
use tso_ops::Trace;

/// The numbers of a cycle, with its edges: there are none without a cycle.
#[derive(Debug, Drop)]
pub(crate) struct LinkedCycle {
    numbers: Vec<usize>,
    links: Vec<(u64, u64)>,
}

impl Model for LinkedCycle {
    ghost use Rattle.std.specs.Prelude.{◌≡◌, ℕ, List};
    ghost use Rattle.trace_explanation.specs.Steps.{links_of};

    ghost Value = { List ℕ };

    ghost view = { λ c. c.numbers.items };

    ghost invariant = { λ c. c.links.items ≡ links_of c.numbers.items };
}

impl LinkedCycle {
    /// This cycle, or OutOfMemory where an allocation was refused.
    pub(crate) fn new(alloc: Global, cycle: &[u64]) -> Result<LinkedCycle, AllocError>
        ensures { IfOk result (λ linked. linked ≡ cycle.now) }
    {
        Ok(LinkedCycle {
            numbers: list_cycle(alloc, cycle)?,
            links: list_links(alloc, cycle)?,
        })
    }

    /// The numbers.
    pub(crate) fn numbers(&self) -> &[usize]
        ensures { result.now ≡ self.now }
    {
        &self.numbers
    }

    /// The edges.
    pub(crate) fn links(&self) -> &[(u64, u64)]
        ensures { result.now ≡ links_of self.now }
    {
        &self.links
    }
}

/// The cycle of a certificate: empty where it has none.
pub(crate) fn cycle_in(certificate: &Option<Certificate>) -> &[u64]
    ensures { result.now ≡ cycle_in certificate.now }
{
    match certificate {
        Some(Certificate::Cycle { cycle, .. }) => cycle.items(),
        _ => &[],
    }
}

/// The steps of a certificate: empty where it has none.
pub(crate) fn steps_in(certificate: &Option<Certificate>) -> &[CertStep]
    ensures { result.now ≡ steps_in certificate.now }
{
    match certificate {
        Some(Certificate::Cycle { steps, .. }) => steps.items(),
        _ => &[],
    }
}

/// The numbers that have a red border: the unwritten load, or those of this cycle and the loads of its edges. OutOfMemory
/// where an allocation was refused.
pub(crate) fn list_red(
    alloc: Global,
    trace: &Trace,
    certificate: &Option<Certificate>,
    cycle: &[u64],
) -> Result<Vec<usize>, AllocError>
    ensures { IfOk result (λ red. red.items ≡ red_numbers trace.now certificate.now cycle.now) }
{
    let mut red = Vec::new(alloc);
    match certificate {
        None => {},
        Some(Certificate::Unwritten(n)) => red.push(*n as usize)?,
        Some(Certificate::Cycle { steps, .. }) => {
            let numbered = NumberedSteps::new(alloc, steps.items())?;
            red = list_cycle(alloc, cycle)?;
            push_loads(&mut red, trace, &numbered, &list_links(alloc, cycle)?)?;
        },
    }
    Ok(red)
}

/// Pushes the loads of the least steps that have these edges.
fn push_loads(
    red: &mut Vec<usize>,
    trace: &Trace,
    numbered: &NumberedSteps<'_>,
    links: &[(u64, u64)],
) -> Result<(), AllocError>
    ensures { OnOk result (red.new.items ≡ red.old.items ++ flat_map (link_load trace.now numbered.now) links.now) }
{
    for link in links {
        push_listed(red, link_load(trace, numbered, *link))?;
    }
    Ok(())
}

/// The load of the first step that is an edge: None where there is none, or its rule names no load.
fn link_load(trace: &Trace, numbered: &NumberedSteps<'_>, link: (u64, u64)) -> Option<usize>
    ensures { option_to_list result ≡ link_load trace.now numbered.now link }
{
    step_load(trace, numbered.step(link.0, link.1)?)
}
