//! The operations of a log that a trace has.
ghost use Rattle.std.specs.Prelude.{◌≡◌, ◌++◌, ◌∷◌, [], map, true, IfOk, IfSome, OnOk, Some, slice_get};
ghost use Rattle.tso_ops.specs.Values.{rows};
ghost use Rattle.log_selections.specs.Cuts.{AreCutFrom, IsKept};
ghost use Rattle.log_text.specs.LogValues.{logged_outcome, logged_outcomes};
ghost use Rattle.log_selections.specs.Internal.Accesses.{numbers_of_lists};
ghost use Rattle.log_selections.specs.Internal.Keeping.{IsKeptOf, numbers_in};

use log_text::{LogOperation, LoggedOperation};
use std::alloc::Global;
use tso_ops::{OutOfMemory, Outcome};

/// An operation that a trace is to have: which of its processor's, from 0, and what it is in the trace.
#[derive(Clone, Copy)]
pub(crate) struct KeptOutcome {
    pub(crate) index: usize,
    pub(crate) outcome: Outcome,
}

/// The numbers in the log of the events that an operation of a trace gives.
#[derive(Clone, Copy)]
enum Origins {
    /// None, of a barrier.
    Barrier,
    /// That of a load or of a store.
    Access(usize),
    /// Those of a swap's load and of its store.
    Swap(usize, usize),
}

/// Keeps these operations of each processor of a log with these lists and the numbers of its operations: nothing where they
/// are no part of it. The numbers of their events are pushed to `origins`. Processors of which nothing is said are left out.
pub(crate) fn keep_lists(
    alloc: Global,
    addresses: &[u64],
    lists: &[Vec<LoggedOperation>],
    numbers: &[Vec<usize>],
    kept: &[Vec<KeptOutcome>],
    origins: &mut Vec<usize>,
) -> Result<Option<Vec<Vec<Outcome>>>, OutOfMemory>
    ensures { IfOk result (λ found. IfSome found (λ outcomes. origins.old.items ≡ [] → rows numbers.now ≡ numbers_of_lists 1 (rows lists.now) →
        AreCutFrom addresses.now 1 (map logged_outcomes (rows lists.now)) (rows outcomes.items) origins.new.items)) }
{
    let mut outcomes = Vec::new(alloc);
    for (p, list) in lists.iter().enumerate() {
        let Some(numbers) = numbers.get(p) else {
            return Ok(None);
        };
        let Some(kept) = kept.get(p) else {
            continue;
        };
        if kept.is_empty() {
            continue;
        }
        match keep_list(alloc, addresses, list, numbers, kept, origins)? {
            Some(row) => outcomes.push(row)?,
            None => return Ok(None),
        }
    }
    Ok(Some(outcomes))
}

/// Keeps these operations of a processor.
fn keep_list(
    alloc: Global,
    addresses: &[u64],
    list: &[LoggedOperation],
    numbers: &[usize],
    kept: &[KeptOutcome],
    origins: &mut Vec<usize>,
) -> Result<Option<Vec<Outcome>>, OutOfMemory>
    ensures { IfOk result (λ found. IfSome found (λ outcomes. IsKeptOf addresses.now numbers.now list.now origins.old.items origins.new.items outcomes.items)) }
{
    let mut outcomes = Vec::new(alloc);
    let mut next = 0;
    for kept in kept {
        let (Some(logged), Some(number)) = (list.get(kept.index), numbers.get(kept.index)) else {
            return Ok(None);
        };
        if kept.index < next {
            return Ok(None);
        }
        let Some(here) = origins_of(addresses, *number, logged.operation, kept.outcome) else {
            return Ok(None);
        };
        push_origins(origins, here)?;
        outcomes.push(kept.outcome)?;
        next = kept.index + 1;
    }
    Ok(Some(outcomes))
}

/// The numbers of the events that the outcome keeps of the operation, the first event of which has this number; None where
/// it is no part of the operation.
fn origins_of(
    addresses: &[u64],
    number: usize,
    operation: LogOperation,
    outcome: Outcome,
) -> Option<Origins>
    ensures { IfSome result (λ origins. IsKept addresses.now number (logged_outcome operation) (outcome ∷ []) (numbers_in origins)) }
{
    let store = number.checked_add(1)?;
    match (operation, outcome) {
        (LogOperation::Mb, Outcome::Mb) | (LogOperation::Sb, Outcome::Sb) => Some(Origins::Barrier),
        (LogOperation::Ld { a, .. }, Outcome::Ld { a: b, .. }) if is_at(addresses, a, b) => {
            Some(Origins::Access(number))
        }
        (LogOperation::St { a, .. }, Outcome::St { a: b, .. }) if is_at(addresses, a, b) => {
            Some(Origins::Access(number))
        }
        (LogOperation::Sw { a, .. }, Outcome::Ld { a: b, .. }) if is_at(addresses, a, b) => {
            Some(Origins::Access(number))
        }
        (LogOperation::Sw { a, .. }, Outcome::St { a: b, .. }) if is_at(addresses, a, b) => {
            Some(Origins::Access(store))
        }
        (LogOperation::Sw { a, .. }, Outcome::Sw { a: b, .. }) if is_at(addresses, a, b) => {
            Some(Origins::Swap(number, store))
        }
        _ => None,
    }
}

/// Whether address `a` of the log is address `b` of the trace.
fn is_at(addresses: &[u64], a: u64, b: u16) -> bool
    ensures { result ≡ true → slice_get addresses.now b ≡ Some a }
{
    addresses.get(b as usize) == Some(&a)
}

/// Pushes the numbers.
fn push_origins(origins: &mut Vec<usize>, kept: Origins) -> Result<(), OutOfMemory>
    ensures { OnOk result (origins.new.items ≡ origins.old.items ++ numbers_in kept) }
{
    match kept {
        Origins::Barrier => {}
        Origins::Access(number) => origins.push(number)?,
        Origins::Swap(load, store) => {
            origins.push(load)?;
            origins.push(store)?;
        }
    }
    Ok(())
}
