//! Where the events of a trace stand in a list.
ghost use Rattle.std.specs.Prelude.{◌≡◌, ◌≢◌, ◌<◌, ℕ, Some, length, slice_get, slice_index, IfOk, MatchOption, MatchResult};
ghost use Rattle.order_check.specs.Refusals.{IsFirst, IsListRefusal, IsRepeatedAt, IsNoEventAt};
ghost use Rattle.order_check.specs.Internal.Places.{ArePlaces, HasPlaces};

use crate::faults::OrderFault;
use std::alloc::{AllocError, Global};
use tso_ops::Trace;

/// The place of each event in the list, from 1, and 0 for number 0; or the first fault of a list in which not each event stands
/// once and nothing else. OutOfMemory where an allocation was refused.
pub(crate) fn places_of(
    alloc: Global,
    trace: &Trace,
    order: &[u64],
) -> Result<Result<Vec<usize>, OrderFault>, AllocError>
    ensures { IfOk result (λ said. MatchResult said (λ places. ArePlaces trace.now order.now places.items) (IsListRefusal trace.now order.now)) }
{
    if let Some(k) = first_no_event(trace, order) {
        return Ok(Err(OrderFault::NotAnEvent(k + 1)));
    }
    let mut places = vec![in alloc; 0; trace.node_count()]?;
    if let Some(k) = enter_places(order, &mut places) {
        return Ok(Err(OrderFault::Repeated(k + 1)));
    }
    match first_missing(&places) {
        Some(n) => Ok(Err(OrderFault::Missing(n))),
        None => Ok(Ok(places)),
    }
}

/// The first place, from 0, whose number is no event.
fn first_no_event(trace: &Trace, order: &[u64]) -> Option<usize>
    ensures { MatchOption result ((k : ℕ) → IsNoEventAt trace.now order.now k → ⊥) (IsFirst (IsNoEventAt trace.now order.now)) }
{
    for (k, number) in order.iter().enumerate() {
        if !trace.is_event(*number as usize) {
            return Some(k);
        }
    }
    None
}

/// Enters the place of each number, up to the first place, from 0, whose number stands at an earlier place too.
fn enter_places(order: &[u64], places: &mut [usize]) -> Option<usize>
    requires within { (k n : ℕ) → slice_get order.now k ≡ Some n → n < length places.old }
    requires none { (n : ℕ) → slice_index places.old n ≡ 0 }
    ensures told { MatchOption result (HasPlaces order.now places.new) (IsFirst (IsRepeatedAt order.now)) }
    ensures long { length places.new ≡ length places.old }
{
    for (k, number) in order.iter().enumerate() {
        let n = *number as usize;
        if places[n] != 0 {
            return Some(k);
        }
        places[n] = k + 1;
    }
    None
}

/// The least number above 0 that has no place.
fn first_missing(places: &[usize]) -> Option<usize>
    ensures { MatchOption result ((n : ℕ) → 0 < n → n < length places.now → slice_index places.now n ≢ 0)
        (IsFirst (λ n. (0 < n) × (n < length places.now) × (slice_index places.now n ≡ 0))) }
{
    for n in 1..places.len() {
        if places[n] == 0 {
            return Some(n);
        }
    }
    None
}
