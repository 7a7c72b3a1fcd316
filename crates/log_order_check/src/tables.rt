//! What is known of a log and of a list in which each event stands once, before the list is gone through.
ghost use Rattle.std.specs.Prelude.{◌≡◌, ◌<◌, ◌≤◌, length, ℕ, suc, List, Some, IfOk, IfSome, IfNone, slice_index, get_or, None};
ghost use Rattle.tso_ops.specs.Values.{TraceValue};
ghost use Rattle.tso_ops.specs.Settings.{first_value};
ghost use Rattle.tso_ops.specs.Events.{IsEvent, event_at};
ghost use Rattle.order_check.specs.Internal.Places.{ArePlaces};
ghost use Rattle.program_chains.specs.LogEvents.{AreEventsOf, as_trace_event, log_trace};
ghost use Rattle.log_order_check.specs.Internal.Tables.{AreTables, IsOwnStore, IsProgramFault, looked_up};
ghost use Rattle.log_order_check.specs.Internal.Most.{IsMost};

use crate::faults::program_faults;
use crate::own::own_places;
use crate::places::place_in;
use log_text::Log;
use order_check::Axiom;
use program_chains::LogEvent;
use std::alloc::Global;
use std::collections::HashMap;
use tso_ops::OutOfMemory;

/// The tables of a log and a list. Tables of events go by indices, which are one less than the numbers.
#[derive(Drop)]
pub(crate) struct Tables {
    pub(crate) events: Vec<LogEvent>,
    /// The place of each number in the list, from 1, and 0 for number 0.
    pub(crate) places: Vec<usize>,
    /// Of each event the greatest place of its processor's program-earlier stores to its address; 0 where there is none.
    pub(crate) own: Vec<usize>,
    /// Of each event the first of LoadOp, StoreStore, Stbar and Membar that isn't met there.
    pub(crate) faults: Vec<Option<Axiom>>,
    /// The first values that aren't 0, by address.
    pub(crate) first: HashMap<u64, u64>,
}

impl Tables {
    /// The tables of a log with these events, and of a list with these places. OutOfMemory where an allocation was refused.
    pub(crate) fn new(
        alloc: Global,
        log: &Log,
        events: Vec<LogEvent>,
        places: Vec<usize>,
    ) -> Result<Tables, OutOfMemory>
        ensures { IfOk result (λ tables. (order : List ℕ) → AreEventsOf (log_trace log.now) events.items → ArePlaces (log_trace log.now) order places.items →
            AreTables (log_trace log.now) order tables) }
    {
        let own = own_places(alloc, &events, &places)?;
        let faults = program_faults(alloc, log.order, &events, &places, &own)?;
        let first = first_values(alloc, &log.first)?;
        Ok(Tables {
            events,
            places,
            own,
            faults,
            first,
        })
    }

    /// The event of a number, if there is one.
    pub(crate) fn event(&self, n: usize) -> Option<LogEvent>
        ensures some { IfSome result (λ e. (t : TraceValue) → AreEventsOf t self.now.events.items → event_at t n ≡ Some (as_trace_event e)) }
        ensures none { IfNone result ((t : TraceValue) → AreEventsOf t self.now.events.items → IsEvent t n → ⊥) }
        ensures within { IfSome result (λ _. (0 < n) × (n ≤ length self.now.events.items)) }
    {
        let x = n.checked_sub(1)?;
        if x < self.events.len() {
            Some(self.events[x])
        } else {
            None
        }
    }

    /// The place of a number: 0 for number 0 and past the last event.
    #[inline]
    pub(crate) fn place(&self, n: usize) -> usize
        ensures { result ≡ slice_index self.now.places.items n }
    {
        place_in(&self.places, n)
    }

    /// The greatest place of the program-earlier stores to the event's address that its processor made; 0 where there is none.
    pub(crate) fn own(&self, n: usize) -> usize
        ensures { (t : TraceValue) (order : List ℕ) → AreTables t order self.now → IsEvent t n → IsMost (IsOwnStore t n) self.now.places.items result }
    {
        match n.checked_sub(1) {
            Some(x) => place_in(&self.own, x),
            None => 0,
        }
    }

    /// The first axiom of program order that isn't met at the event, or None where they are.
    pub(crate) fn fault(&self, n: usize) -> Option<Axiom>
        ensures { (t : TraceValue) (order : List ℕ) → AreTables t order self.now → IsEvent t n → IsProgramFault t order n result }
    {
        match n.checked_sub(1) {
            Some(x) => fault_in(&self.faults, x),
            None => None,
        }
    }

    /// The first value of an address.
    pub(crate) fn first_value(&self, address: u64) -> u64
        ensures { result ≡ looked_up self.now.first address }
    {
        self.first.get(&address).copied().unwrap_or(0)
    }
}

/// What a table of faults has at an index: None past its end.
fn fault_in(faults: &[Option<Axiom>], x: usize) -> Option<Axiom>
    ensures { result ≡ get_or faults.now x None }
{
    match faults.get(x) {
        Some(fault) => *fault,
        None => None,
    }
}

/// The first values by address: of two entries of one address the first counts.
fn first_values(alloc: Global, first: &[(u64, u64)]) -> Result<HashMap<u64, u64>, OutOfMemory>
    ensures { IfOk result (λ values. (a : ℕ) → looked_up values a ≡ first_value first.now a) }
{
    let mut values = HashMap::new(alloc);
    let mut left = first.len();
    while left > 0 {
        left -= 1;
        values.insert(first[left].0, first[left].1)?;
    }
    Ok(values)
}
