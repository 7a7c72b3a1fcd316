//! What is known of a log by the steps of evidence so far.
ghost use Rattle.std.specs.Prelude.{◌≡◌, ◌≢◌, ◌<◌, ◌↔◌, ℕ, suc, List, Some, length, IsTrue, IfSome, IfNone, MatchOption};
ghost use Rattle.std.specs.List.{Contains};
ghost use Rattle.chain_reach.specs.Leading.{Leads};
ghost use Rattle.tso_ops.specs.Values.{TraceValue};
ghost use Rattle.tso_ops.specs.Events.{event_at, Earlier, IsEvent, IsLoad, IsSwapLoad, IsStore, SameAddress};
ghost use Rattle.value_evidence.specs.declared.steps.ValueStep.{ValueStep};
ghost use Rattle.value_evidence.specs.Candidates.{SeesStore};
ghost use Rattle.program_chains.specs.LogEvents.{AreEventsOf, as_trace_event};
ghost use Rattle.value_check.specs.Internal.Known.{IsKnownBy, IsTaken};

use crate::cells::Cells;
use crate::noted::{Noted, noted_at};
use chain_reach::Reach;
use program_chains::LogEvent;

/// A log's events, with what is known of them by the steps so far. Events go by their indices, which are one less than their numbers.
#[derive(Drop)]
pub(crate) struct Known {
    pub(crate) events: Vec<LogEvent>,
    /// Whether an event's value is the first value of its address.
    pub(crate) has_first: Vec<bool>,
    /// The events by address and value.
    pub(crate) values: Cells,
    /// The events by address.
    pub(crate) addresses: Cells,
    /// What comes before what.
    pub(crate) reach: Reach,
    /// Of each load the numbers of sources that steps say.
    pub(crate) sources: Vec<Noted>,
    /// Of each store the loads of swaps of its address that read it.
    pub(crate) takers: Vec<Noted>,
    /// The same of first values, by the classes of addresses.
    pub(crate) first_takers: Vec<Noted>,
}

impl Known {
    /// Whether an event is known to come before another; false where there is no such event.
    pub(crate) fn leads(&self, x: usize, y: usize) -> bool
        ensures { IsTrue result ↔ Leads self.now.reach x y }
    {
        let nodes = self.reach.chains().nodes();
        if x >= nodes {
            return false;
        }
        if y >= nodes {
            return false;
        }
        self.reach.leads(x, y)
    }

    /// The index of the event of this number, if there is one.
    pub(crate) fn index_of(&self, number: usize) -> Option<usize>
        ensures { MatchOption result ((x : ℕ) → x < length self.now.events.items → number ≢ suc x)
            (λ x. (number ≡ suc x) × (x < length self.now.events.items)) }
    {
        let index = number.checked_sub(1)?;
        if index < self.events.len() {
            Some(index)
        } else {
            None
        }
    }

    /// The event at an index, if there is one.
    pub(crate) fn event(&self, x: usize) -> Option<LogEvent>
        ensures some { IfSome result (λ e. (t : TraceValue) → AreEventsOf t self.now.events.items → event_at t (suc x) ≡ Some (as_trace_event e)) }
        ensures none { IfNone result ((t : TraceValue) → AreEventsOf t self.now.events.items → IsEvent t (suc x) → ⊥) }
    {
        if x < self.events.len() {
            Some(self.events[x])
        } else {
            None
        }
    }

    /// Whether the event at an index is a load.
    pub(crate) fn is_load(&self, x: usize) -> bool
        ensures { (t : TraceValue) → AreEventsOf t self.now.events.items → IsTrue result ↔ IsLoad t (suc x) }
    {
        match self.event(x) {
            Some(event) => event.load,
            None => false,
        }
    }

    /// Whether the event at an index is a swap's load.
    pub(crate) fn is_swap_load(&self, x: usize) -> bool
        ensures { (t : TraceValue) → AreEventsOf t self.now.events.items → IsTrue result ↔ IsSwapLoad t (suc x) }
    {
        match self.event(x) {
            Some(event) => event.load && event.swap,
            None => false,
        }
    }

    /// Whether the event at an index is a store.
    pub(crate) fn is_store(&self, x: usize) -> bool
        ensures { (t : TraceValue) → AreEventsOf t self.now.events.items → IsTrue result ↔ IsStore t (suc x) }
    {
        match self.event(x) {
            Some(event) => !event.load,
            None => false,
        }
    }

    /// Whether two events have one address.
    pub(crate) fn is_one_address(&self, x: usize, y: usize) -> bool
        ensures { (t : TraceValue) → AreEventsOf t self.now.events.items → IsTrue result ↔ SameAddress t (suc x) (suc y) }
    {
        match (self.event(x), self.event(y)) {
            (Some(first), Some(second)) => first.address == second.address,
            _ => false,
        }
    }

    /// Whether an event is program-earlier than another.
    pub(crate) fn is_earlier(&self, x: usize, y: usize) -> bool
        ensures { (t : TraceValue) → AreEventsOf t self.now.events.items → IsTrue result ↔ Earlier t (suc x) (suc y) }
    {
        match (self.event(x), self.event(y)) {
            (Some(first), Some(second)) => first.processor == second.processor && x < y,
            _ => false,
        }
    }

    /// Whether a load sees a store: one to its address that comes before it or is program-earlier.
    pub(crate) fn sees(&self, load: usize, store: usize) -> bool
        ensures { (t : TraceValue) (steps : List ValueStep) → IsKnownBy t steps self.now → IsTrue result ↔ SeesStore t steps (suc load) (suc store) }
    {
        if !self.is_store(store) {
            return false;
        }
        if !self.is_one_address(store, load) {
            return false;
        }
        self.leads(store, load) || self.is_earlier(store, load)
    }

    /// Whether steps say that a load read another number than this one.
    pub(crate) fn read_another(&self, load: usize, number: usize) -> bool
        ensures { (t : TraceValue) (steps : List ValueStep) → IsKnownBy t steps self.now → load < length self.now.events.items →
            IsTrue result ↔ ((s : ℕ) × Contains steps (ValueStep.Read (suc load) s) × (s ≢ number)) }
    {
        noted_at(&self.sources, load).has_other(number)
    }

    /// Whether steps say that another swap of the address than a swap's load read a store to it.
    pub(crate) fn is_taken(&self, load: usize, store: usize) -> bool
        ensures { (t : TraceValue) (steps : List ValueStep) → IsKnownBy t steps self.now → SameAddress t (suc store) (suc load) →
            IsTrue result ↔ IsTaken t steps (suc load) (suc store) }
    {
        if !self.is_swap_load(load) {
            return false;
        }
        noted_at(&self.takers, store).has_other(load)
    }

    /// Whether steps say that another swap of the address than a swap's load read the first value.
    pub(crate) fn is_first_taken(&self, load: usize) -> bool
        ensures { (t : TraceValue) (steps : List ValueStep) → IsKnownBy t steps self.now → IsTrue result ↔ IsTaken t steps (suc load) 0 }
    {
        if !self.is_swap_load(load) {
            return false;
        }
        if load >= self.addresses.class_of.len() {
            return false;
        }
        let class = self.addresses.class_of[load] as usize;
        noted_at(&self.first_takers, class).has_other(load)
    }
}
