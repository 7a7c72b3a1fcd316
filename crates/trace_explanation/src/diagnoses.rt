//! The line that begins the explanation of a cycle.
ghost use Rattle.std.specs.Prelude.{◌≡◌, ◌++◌, option_map, string_bytes, OnOk, IfOk};
ghost use Rattle.trace_explanation.specs.Diagnoses.{diagnosis_by, diagnosis_text, future_line, explains_less, is_direct, missed_by, missed_line, missed_path, misses_more, stale_by, stale_line, stale_walk, explains_more};

use crate::closed_paths::{closing_path, is_torn, leaves_address, only_closes, stale_cycle};
use crate::cycle_names::shape_text;
use crate::cycle_shapes::{cycle_shape, last_of, on_one_processor};
use crate::diagnosis_words::{before_words, load_words, order_words, place_words, store_words};
use crate::loads::own_load;
use crate::names::{NamedTrace, address_of};
use crate::numbers::NumberedSteps;
use crate::unfolded_cycles::{EdgeKind, item, missed_walk, unfolded_cycle, walk_by};
use std::alloc::{AllocError, Global};
use std::fmt::Write;
use tso_cert::{CertStep, Reason};
use tso_ops::Trace;

/// Appends the line on a cycle: which load read something too old, or from a later store, and what the cycle is called.
/// OutOfMemory where an allocation was refused.
#[tactic(auto, unfolding(crate::specs::Diagnoses::diagnosis_by))]
pub(crate) fn push_diagnosis(
    alloc: Global,
    text: &mut String,
    named: &NamedTrace<'_>,
    numbered: &NumberedSteps<'_>,
    cycle: &[u64],
) -> Result<(), AllocError>
    ensures { OnOk result (string_bytes text.new ≡ string_bytes text.old ++ diagnosis_text named.now.names.now named.now.trace.now numbered.now cycle.now) }
{
    let cycle = unfolded_cycle(alloc, numbered, cycle)?;
    if let Some(walk) = stale_walk(alloc, named.trace, numbered, &cycle)? {
        let path = closing_path(numbered, &walk);
        return push_stale_by(alloc, text, named, numbered, &walk, path);
    }
    if let Some(walk) = missed_walk(alloc, numbered, &cycle)? {
        return push_missed(alloc, text, named, numbered, &walk);
    }
    match walk_by(alloc, numbered, EdgeKind::ReadFrom, &cycle)? {
        Some(walk) => push_future(alloc, text, named, &walk),
        None => Ok(()),
    }
}

/// The walk from a store to the first load that missed it, unless it gives way to that of another load. OutOfMemory where an
/// allocation was refused.
pub(crate) fn stale_walk(
    alloc: Global,
    trace: &Trace,
    numbered: &NumberedSteps<'_>,
    cycle: &[u64],
) -> Result<Option<Vec<u64>>, AllocError>
    ensures { IfOk result (λ walk. option_map (λ w. w.items) walk ≡ stale_walk trace.now numbered.now cycle.now) }
{
    match walk_by(alloc, numbered, EdgeKind::FromRead, cycle)? {
        Some(walk) => {
            if explains_less(alloc, trace, numbered, cycle, &walk)? {
                Ok(None)
            } else {
                Ok(Some(walk))
            }
        }
        None => Ok(None),
    }
}

/// Whether in the cycle the walk from a store to a swap's load that missed it only shows that these stores have two orders, and
/// another load missed one of them.
fn explains_less(
    alloc: Global,
    trace: &Trace,
    numbered: &NumberedSteps<'_>,
    cycle: &[u64],
    walk: &[u64],
) -> Result<bool, AllocError>
    ensures { IfOk result (λ gives. gives ≡ explains_less trace.now numbered.now cycle.now walk.now) }
{
    let shape = cycle_shape(alloc, trace, walk)?;
    let closes = only_closes(alloc, trace, walk, closing_path(numbered, walk))?;
    let explains_more = match missed_walk(alloc, numbered, cycle)? {
        Some(missed) => misses_more(alloc, trace, numbered, &missed)?,
        None => false,
    };
    Ok(is_torn(&shape) && !closes && explains_more)
}

/// Whether the path by which a load sees the store that it missed, to which this walk leads from what it read, begins on the load's
/// processor or goes over another address.
fn misses_more(
    alloc: Global,
    trace: &Trace,
    numbered: &NumberedSteps<'_>,
    walk: &[u64],
) -> Result<bool, AllocError>
    ensures { IfOk result (λ misses. misses ≡ misses_more trace.now numbered.now walk.now) }
{
    let store = last_of(walk);
    match numbered.step(store, item(walk, 0)) {
        Some(step) => {
            let path = missed_path(alloc, trace, step)?;
            explains_more(alloc, trace, store as usize, &path)
        }
        None => Ok(false),
    }
}

/// Whether this path, by which a load sees store `u`, begins on the load's processor or goes over another address.
fn explains_more(alloc: Global, trace: &Trace, u: usize, path: &[u64]) -> Result<bool, AllocError>
    ensures { IfOk result (λ tells. tells ≡ explains_more trace.now u path.now) }
{
    let leaves = leaves_address(alloc, trace, address_of(trace, u), path)?;
    Ok(on_one_processor(trace, u, last_of(path) as usize) || leaves)
}

/// Appends the line of a walk from a store to a load that read something older, by the path to the store from what it read.
fn push_stale_by(
    alloc: Global,
    text: &mut String,
    named: &NamedTrace<'_>,
    numbered: &NumberedSteps<'_>,
    walk: &[u64],
    path: &[u64],
) -> Result<(), AllocError>
    ensures { OnOk result (string_bytes text.new ≡ string_bytes text.old ++ stale_by named.now.names.now named.now.trace.now numbered.now walk.now path.now) }
{
    let cycle = stale_cycle(alloc, named.trace, numbered, walk, path)?;
    let shape = cycle_shape(alloc, named.trace, &cycle)?;
    let order = if only_closes(alloc, named.trace, walk, path)? {
        order_words(
            alloc,
            named.names,
            item(walk, 0) as usize,
            item(path, 0) as usize,
        )?
    } else {
        String::new(alloc)
    };
    push_stale(alloc, text, named, &shape, walk, &order)
}

/// Appends the line of a walk from a store to a load that read something older, with what is said of the two stores; the cycle has
/// this shape.
#[tactic(auto, unfolding(crate::specs::Diagnoses::stale_line))]
fn push_stale(
    alloc: Global,
    text: &mut String,
    named: &NamedTrace<'_>,
    shape: &str,
    walk: &[u64],
    order: &str,
) -> Result<(), AllocError>
    ensures { OnOk result (string_bytes text.new ≡ string_bytes text.old ++ stale_line named.now.names.now named.now.trace.now shape.now walk.now order.now) }
{
    let store = item(walk, 0) as usize;
    let load = last_of(walk) as usize;
    let read = load_words(alloc, named.names, load)?;
    let missed = store_words(alloc, named, load, store)?;
    let before = before_words(alloc, named, walk, store, load)?;
    let shape = shape_text(alloc, shape)?;
    write!(
        text,
        "\n{read} from before {missed}{before}{order}: {shape}.\n"
    )
}

/// Appends the line of a walk to a store from what a load read that sees the store.
#[tactic(auto, unfolding(crate::specs::Diagnoses::missed_line))]
fn push_missed(
    alloc: Global,
    text: &mut String,
    named: &NamedTrace<'_>,
    numbered: &NumberedSteps<'_>,
    walk: &[u64],
) -> Result<(), AllocError>
    ensures { OnOk result (string_bytes text.new ≡ string_bytes text.old ++ missed_line named.now.names.now named.now.trace.now numbered.now walk.now) }
{
    match numbered.step(last_of(walk), item(walk, 0)) {
        Some(step) => {
            let path = missed_path(alloc, named.trace, step)?;
            push_missed_by(alloc, text, named, walk, &path)
        }
        None => Ok(()),
    }
}

/// Appends the same line, of a load that sees the store by this path.
fn push_missed_by(
    alloc: Global,
    text: &mut String,
    named: &NamedTrace<'_>,
    walk: &[u64],
    path: &[u64],
) -> Result<(), AllocError>
    ensures { OnOk result (string_bytes text.new ≡ string_bytes text.old ++ missed_by named.now.names.now named.now.trace.now walk.now path.now) }
{
    if is_direct(alloc, named.trace, walk)? {
        let shape = cycle_shape(alloc, named.trace, path)?;
        push_stale(alloc, text, named, &shape, path, "")
    } else {
        let shape = cycle_shape(alloc, named.trace, walk)?;
        let order = order_words(
            alloc,
            named.names,
            last_of(walk) as usize,
            item(walk, 0) as usize,
        )?;
        push_stale(alloc, text, named, &shape, path, &order)
    }
}

/// The path from a store to the load that sees it, by the step. OutOfMemory where an allocation was refused.
pub(crate) fn missed_path(
    alloc: Global,
    trace: &Trace,
    step: &CertStep,
) -> Result<Vec<u64>, AllocError>
    ensures { IfOk result (λ path. path.items ≡ missed_path trace.now step.now.from step.now.to step.now.reason) }
{
    match &step.reason {
        Reason::Base(_) => {
            let mut path = vec![in alloc; step.from]?;
            if let Some(load) = own_load(trace, step.from as usize, step.to as usize) {
                path.push(load as u64)?;
            }
            Ok(path)
        }
        Reason::Inferred { path, .. } => Vec::from_slice(alloc, path.items()),
    }
}

/// Whether the walk to the store says nothing of the cycle's shape. OutOfMemory where an allocation was refused.
pub(crate) fn is_direct(alloc: Global, trace: &Trace, walk: &[u64]) -> Result<bool, AllocError>
    ensures { IfOk result (λ direct. direct ≡ is_direct trace.now walk.now) }
{
    let address = address_of(trace, last_of(walk) as usize);
    let leaves = leaves_address(alloc, trace, address, walk)?;
    Ok(item(walk, 0) == 0 || !leaves)
}

/// Appends the line of a walk from a load to a store that it read.
#[tactic(auto, unfolding(crate::specs::Diagnoses::future_line))]
fn push_future(
    alloc: Global,
    text: &mut String,
    named: &NamedTrace<'_>,
    walk: &[u64],
) -> Result<(), AllocError>
    ensures { OnOk result (string_bytes text.new ≡ string_bytes text.old ++ future_line named.now.names.now named.now.trace.now walk.now) }
{
    let load = item(walk, 0) as usize;
    let store = last_of(walk) as usize;
    let read = load_words(alloc, named.names, load)?;
    let source = store_words(alloc, named, load, store)?;
    let place = place_words(alloc, named.names, load)?;
    let shape = shape_text(alloc, &cycle_shape(alloc, named.trace, walk)?)?;
    write!(
        text,
        "\n{read} from {source}, though that store comes after the load {place}: {shape}.\n"
    )
}
