//! The cycle that a diagnosis names.
ghost use Rattle.std.specs.Prelude.{◌≡◌, IfOk};
ghost use Rattle.trace_explanation.specs.DiagnosedCycles.{diagnosed_cycle, missed_by_steps, missed_cycle, named_cycle};

use crate::closed_paths::{closing_path, stale_cycle};
use crate::cycle_shapes::last_of;
use crate::diagnoses::{is_direct, missed_path, stale_walk};
use crate::numbers::NumberedSteps;
use crate::unfolded_cycles::{item, missed_walk, unfolded_cycle};
use std::alloc::{AllocError, Global};
use tso_ops::Trace;

/// The cycle of which the diagnosis of a certificate's cycle says the shape: each number before the next, and the last before
/// the first. OutOfMemory where an allocation was refused.
pub fn diagnosed_cycle(
    alloc: Global,
    trace: &Trace,
    numbered: &NumberedSteps<'_>,
    cycle: &[u64],
) -> Result<Vec<u64>, AllocError>
    ensures { IfOk result (λ numbers. numbers.items ≡ diagnosed_cycle trace.now numbered.now cycle.now) }
{
    let unfolded = unfolded_cycle(alloc, numbered, cycle)?;
    named_cycle(alloc, trace, numbered, &unfolded)
}

/// The same by the unfolded cycle.
#[tactic(auto, unfolding(crate::specs::DiagnosedCycles::named_cycle))]
fn named_cycle(
    alloc: Global,
    trace: &Trace,
    numbered: &NumberedSteps<'_>,
    cycle: &[u64],
) -> Result<Vec<u64>, AllocError>
    ensures { IfOk result (λ numbers. numbers.items ≡ named_cycle trace.now numbered.now cycle.now) }
{
    if let Some(walk) = stale_walk(alloc, trace, numbered, cycle)? {
        let path = closing_path(numbered, &walk);
        return stale_cycle(alloc, trace, numbered, &walk, path);
    }
    match missed_walk(alloc, numbered, cycle)? {
        Some(walk) => missed_by_steps(alloc, trace, numbered, &walk),
        None => Vec::from_slice(alloc, cycle),
    }
}

/// The cycle by a walk to a store from what a load read that missed it.
fn missed_by_steps(
    alloc: Global,
    trace: &Trace,
    numbered: &NumberedSteps<'_>,
    walk: &[u64],
) -> Result<Vec<u64>, AllocError>
    ensures { IfOk result (λ numbers. numbers.items ≡ missed_by_steps trace.now numbered.now walk.now) }
{
    match numbered.step(last_of(walk), item(walk, 0)) {
        Some(step) => {
            let path = missed_path(alloc, trace, step)?;
            missed_cycle(alloc, trace, walk, path)
        }
        None => Vec::from_slice(alloc, walk),
    }
}

/// The load's path from the store where it has the shape of the cycle, else the walk to the store.
fn missed_cycle(
    alloc: Global,
    trace: &Trace,
    walk: &[u64],
    path: Vec<u64>,
) -> Result<Vec<u64>, AllocError>
    ensures { IfOk result (λ numbers. numbers.items ≡ missed_cycle trace.now walk.now path.items) }
{
    if is_direct(alloc, trace, walk)? {
        Ok(path)
    } else {
        Vec::from_slice(alloc, walk)
    }
}
