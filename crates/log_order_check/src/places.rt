//! Where the events of a log stand in a list.
ghost use Rattle.std.specs.Prelude.{◌≡◌, ◌≢◌, ◌<◌, ◌+◌, ℕ, Some, length, slice_get, slice_index, IfOk, MatchOption, MatchResult};
ghost use Rattle.tso_ops.specs.Values.{TraceValue};
ghost use Rattle.tso_ops.specs.Events.{event_total};
ghost use Rattle.order_check.specs.Refusals.{IsFirst, IsListRefusal, IsRepeatedAt, IsNoEventAt};
ghost use Rattle.order_check.specs.Internal.Places.{ArePlaces, HasPlaces};
ghost use Rattle.program_chains.specs.LogEvents.{AreEventsOf};

use order_check::OrderFault;
use program_chains::LogEvent;
use std::alloc::Global;
use tso_ops::OutOfMemory;

/// What a table has at an index: 0 past its end.
#[inline]
pub(crate) fn place_in(places: &[usize], n: usize) -> usize
    ensures { result ≡ slice_index places.now n }
{
    match places.get(n) {
        Some(place) => *place,
        None => 0,
    }
}

/// The place of each event in the list, from 1, and 0 for number 0; or the first fault of a list in which not each event stands
/// once and nothing else. OutOfMemory where an allocation was refused.
pub(crate) fn places_of(
    alloc: Global,
    events: &[LogEvent],
    order: &[usize],
) -> Result<Result<Vec<usize>, OrderFault>, OutOfMemory>
    ensures { IfOk result (λ said. (t : TraceValue) → AreEventsOf t events.now →
        MatchResult said (λ places. ArePlaces t order.now places.items) (IsListRefusal t order.now)) }
{
    let count = events.len();
    if let Some(k) = first_no_event(count, order) {
        return Ok(Err(OrderFault::NotAnEvent(k + 1)));
    }
    let mut places = vec![in alloc; 0; count + 1]?;
    if let Some(k) = enter_places(order, &mut places) {
        return Ok(Err(OrderFault::Repeated(k + 1)));
    }
    match first_missing(&places) {
        Some(n) => Ok(Err(OrderFault::Missing(n))),
        None => Ok(Ok(places)),
    }
}

/// The first place, from 0, whose number is no event, where the events are numbers 1 to `count`.
fn first_no_event(count: usize, order: &[usize]) -> Option<usize>
    ensures told { (t : TraceValue) → event_total t ≡ count →
        MatchOption result ((k : ℕ) → IsNoEventAt t order.now k → ⊥) (IsFirst (IsNoEventAt t order.now)) }
    ensures within { MatchOption result ((k n : ℕ) → slice_get order.now k ≡ Some n → n < count + 1) (λ k. k < length order.now) }
{
    for (k, number) in order.iter().enumerate() {
        if *number == 0 || *number > count {
            return Some(k);
        }
    }
    None
}

/// Enters the place of each number, up to the first place, from 0, whose number stands at an earlier place too.
fn enter_places(order: &[usize], places: &mut [usize]) -> Option<usize>
    requires within { (k n : ℕ) → slice_get order.now k ≡ Some n → n < length places.old }
    requires none { (n : ℕ) → slice_index places.old n ≡ 0 }
    ensures told { MatchOption result (HasPlaces order.now places.new) (IsFirst (IsRepeatedAt order.now)) }
    ensures long { length places.new ≡ length places.old }
{
    for (k, number) in order.iter().enumerate() {
        let n = *number;
        if places[n] != 0 {
            return Some(k);
        }
        places[n] = k + 1;
    }
    None
}

/// The least number above 0 that has no place.
fn first_missing(places: &[usize]) -> Option<usize>
    ensures { MatchOption result ((n : ℕ) → 0 < n → n < length places.now → slice_index places.now n ≢ 0)
        (IsFirst (λ n. (0 < n) × (n < length places.now) × (slice_index places.now n ≡ 0))) }
{
    for n in 1..places.len() {
        if places[n] == 0 {
            return Some(n);
        }
    }
    None
}
