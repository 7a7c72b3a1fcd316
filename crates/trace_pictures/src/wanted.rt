//! Which events are wanted in a picture, the most wanted first.
ghost use Rattle.std.specs.Prelude.{◌≡◌, ◌++◌, ◌∷◌, reverse, take, IfOk, OnOk};
ghost use Rattle.std.specs.List.{flat_map};
ghost use Rattle.std.specs.Option.{option_to_list};
ghost use Rattle.trace_explanation.specs.Explanations.{store_numbers};
ghost use Rattle.trace_explanation.specs.Names.{address_at};
ghost use Rattle.trace_explanation.specs.Steps.{links_of, step_numbers};
ghost use Rattle.trace_pictures.specs.Choice.{verdict_numbers, wanted};
ghost use Rattle.trace_pictures.specs.Paths.{path_numbers};

use crate::paths::push_path_numbers;
use std::alloc::{AllocError, Global};
use trace_explanation::{
    NumberedSteps, address_of, first_of, list_links, list_stores, source_of, step_load,
};
use tso_cert::{CertStep, Certificate};
use tso_ops::Trace;

/// How many stores to an unwritten load's address are wanted at most.
const WANTED_STORES: usize = 16;

/// The events that the verdict speaks of, each before its source. OutOfMemory where an allocation was refused.
pub(crate) fn list_wanted(
    alloc: Global,
    trace: &Trace,
    certificate: &Option<Certificate>,
) -> Result<Vec<usize>, AllocError>
    ensures { IfOk result (λ numbers. numbers.items ≡ wanted trace.now certificate.now) }
{
    let numbers = list_verdict(alloc, trace, certificate)?;
    let mut wanted = Vec::new(alloc);
    for n in &numbers {
        wanted.push(*n)?;
        push_listed(&mut wanted, source_of(trace, *n))?;
    }
    Ok(wanted)
}

/// Pushes the number, if there is one.
pub(crate) fn push_listed(numbers: &mut Vec<usize>, number: Option<usize>) -> Result<(), AllocError>
    ensures { OnOk result (numbers.new.items ≡ numbers.old.items ++ option_to_list number) }
{
    match number {
        Some(n) => numbers.push(n)?,
        None => {},
    }
    Ok(())
}

/// The numbers that the verdict speaks of.
fn list_verdict(
    alloc: Global,
    trace: &Trace,
    certificate: &Option<Certificate>,
) -> Result<Vec<usize>, AllocError>
    ensures { IfOk result (λ numbers. numbers.items ≡ verdict_numbers trace.now certificate.now) }
{
    match certificate {
        None => Ok(Vec::new(alloc)),
        Some(Certificate::Unwritten(n)) => list_unwritten(alloc, trace, *n as usize),
        Some(Certificate::Cycle { steps, cycle }) => {
            list_cycle_first(alloc, trace, steps.items(), cycle.items())
        },
    }
}

/// The numbers of a cycle, those of the paths by which its edges are inferred, and those of the steps.
fn list_cycle_first(
    alloc: Global,
    trace: &Trace,
    steps: &[CertStep],
    cycle: &[u64],
) -> Result<Vec<usize>, AllocError>
    ensures { IfOk result (λ numbers. numbers.items ≡ cycle.now ++ path_numbers steps.now (links_of cycle.now) ++
        flat_map (step_numbers trace.now) (reverse steps.now)) }
{
    let numbered = NumberedSteps::new(alloc, steps)?;
    let links = list_links(alloc, cycle)?;
    let mut numbers = list_cycle(alloc, cycle)?;
    push_path_numbers(&mut numbers, &numbered, &links)?;
    push_steps(&mut numbers, trace, steps)?;
    Ok(numbers)
}

/// An unwritten load, and the first stores to its address.
fn list_unwritten(alloc: Global, trace: &Trace, n: usize) -> Result<Vec<usize>, AllocError>
    ensures { IfOk result (λ numbers. numbers.items ≡ n ∷ take 16 (store_numbers trace.now (address_at trace.now n))) }
{
    let stores = list_stores(alloc, trace, address_of(trace, n))?;
    let mut numbers = Vec::new(alloc);
    numbers.push(n)?;
    numbers.extend_from_slice(first_of(&stores, WANTED_STORES))?;
    Ok(numbers)
}

/// The numbers of a cycle. OutOfMemory where an allocation was refused.
pub(crate) fn list_cycle(alloc: Global, cycle: &[u64]) -> Result<Vec<usize>, AllocError>
    ensures { IfOk result (λ numbers. numbers.items ≡ cycle.now) }
{
    let mut numbers = Vec::new(alloc);
    for n in cycle {
        numbers.push(*n as usize)?;
    }
    Ok(numbers)
}

/// Pushes the ends and the loads of the steps, those of the last step first.
fn push_steps(numbers: &mut Vec<usize>, trace: &Trace, steps: &[CertStep]) -> Result<(), AllocError>
    ensures { OnOk result (numbers.new.items ≡ numbers.old.items ++ flat_map (step_numbers trace.now) (reverse steps.now)) }
{
    for done in 0..steps.len() {
        let k = steps.len() - 1 - done;
        push_step(numbers, trace, &steps[k])?;
    }
    Ok(())
}

/// Pushes the ends and the load of a step.
fn push_step(numbers: &mut Vec<usize>, trace: &Trace, step: &CertStep) -> Result<(), AllocError>
    ensures { OnOk result (numbers.new.items ≡ numbers.old.items ++ step_numbers trace.now step.now) }
{
    numbers.push(step.from as usize)?;
    numbers.push(step.to as usize)?;
    push_listed(numbers, step_load(trace, step))
}
