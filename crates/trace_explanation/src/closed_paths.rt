//! Loads that only show which of two stores comes first, and the cycle of these stores.
ghost use Rattle.std.specs.Prelude.{◌≡◌, IfOk};
ghost use Rattle.std.specs.List.{list_any};
ghost use Rattle.trace_explanation.specs.ClosedPaths.{closed_path, closing_path, is_elsewhere, is_torn, leaves_address, only_closes, reason_path, shows_order, stale_cycle};

use crate::cycle_shapes::{cycle_shape, last_of, on_one_processor};
use crate::links::list_links;
use crate::names::address_of;
use crate::numbers::NumberedSteps;
use crate::unfolded_cycles::{EdgeKind, item, unfolded_cycle, walk_by};
use std::alloc::{AllocError, Global};
use tso_cert::Reason;
use tso_ops::Trace;

/// The path on which the edge rests that closes a walk: of a from-read from what the load read to the store that it missed.
pub(crate) fn closing_path<'s>(numbered: &NumberedSteps<'s>, walk: &[u64]) -> &'s [u64]
    ensures { result.now ≡ closing_path numbered.now walk.now }
{
    match numbered.step(last_of(walk), item(walk, 0)) {
        Some(step) => reason_path(&step.reason),
        None => &[],
    }
}

/// The path of an inferred reason.
fn reason_path(reason: &Reason) -> &[u64]
    ensures { result.now ≡ reason_path reason.now }
{
    match reason {
        Reason::Base(_) => &[],
        Reason::Inferred { path, .. } => path.items(),
    }
}

/// The cycle that is named, of a walk from a store to a load that missed it, and the path to the store from what the load read.
/// OutOfMemory where an allocation was refused.
pub(crate) fn stale_cycle(
    alloc: Global,
    trace: &Trace,
    numbered: &NumberedSteps<'_>,
    walk: &[u64],
    path: &[u64],
) -> Result<Vec<u64>, AllocError>
    ensures { IfOk result (λ cycle. cycle.items ≡ stale_cycle trace.now numbered.now walk.now path.now) }
{
    if only_closes(alloc, trace, walk, path)? {
        closed_path(alloc, numbered, path)
    } else {
        Vec::from_slice(alloc, walk)
    }
}

/// Whether the walk from a store to a load that missed it only shows that this store comes before what the load read, and the path
/// by which that comes before the store has the shape of the violation. OutOfMemory where an allocation was refused.
#[tactic(auto, unfolding(crate::specs::ClosedPaths::only_closes))]
pub(crate) fn only_closes(
    alloc: Global,
    trace: &Trace,
    walk: &[u64],
    path: &[u64],
) -> Result<bool, AllocError>
    ensures { IfOk result (λ closes. closes ≡ only_closes trace.now walk.now path.now) }
{
    let shape = cycle_shape(alloc, trace, walk)?;
    let address = address_of(trace, last_of(walk) as usize);
    let leaves = leaves_address(alloc, trace, address, path)?;
    Ok(item(path, 0) > 0 && shows_order(&shape) && leaves)
}

/// Whether a load missed the store that an earlier load of its processor read, or an own store, or is that of a swap, in a cycle of
/// this shape.
fn shows_order(shape: &str) -> bool
    ensures { result ≡ shows_order shape.now }
{
    shape == "Rfe PosRR Fre" || shape == "PosWR Fri" || is_torn(shape)
}

/// Whether a swap's load missed a store that the swap's store comes after, in a cycle of this shape.
pub(crate) fn is_torn(shape: &str) -> bool
    ensures { result ≡ is_torn shape.now }
{
    shape == "Coe Fre"
}

/// Whether the cycle isn't about this address alone. OutOfMemory where an allocation was refused.
pub(crate) fn leaves_address(
    alloc: Global,
    trace: &Trace,
    address: u16,
    cycle: &[u64],
) -> Result<bool, AllocError>
    ensures { IfOk result (λ leaves. leaves ≡ leaves_address trace.now address cycle.now) }
{
    let links = list_links(alloc, cycle)?;
    Ok(any_elsewhere(trace, address, &links))
}

/// Whether one of the edges joins two processors at another address.
fn any_elsewhere(trace: &Trace, address: u16, links: &[(u64, u64)]) -> bool
    ensures { result ≡ list_any (is_elsewhere trace.now address) links.now }
{
    links.iter().any(|link| is_elsewhere(trace, address, *link))
}

/// Whether the edge joins two processors, or begins at the first values, and begins at another address.
fn is_elsewhere(trace: &Trace, address: u16, link: (u64, u64)) -> bool
    ensures { result ≡ is_elsewhere trace.now address link }
{
    let from = link.0 as usize;
    !on_one_processor(trace, from, link.1 as usize) && address_of(trace, from) != address
}

/// The path as a cycle, unfolded, from the end of its first from-read if it has one. OutOfMemory where an allocation was refused.
fn closed_path(
    alloc: Global,
    numbered: &NumberedSteps<'_>,
    path: &[u64],
) -> Result<Vec<u64>, AllocError>
    ensures { IfOk result (λ cycle. cycle.items ≡ closed_path numbered.now path.now) }
{
    let cycle = unfolded_cycle(alloc, numbered, path)?;
    match walk_by(alloc, numbered, EdgeKind::FromRead, &cycle)? {
        Some(walk) => Ok(walk),
        None => Ok(cycle),
    }
}
