//! How far the check of a list has come.
ghost use Rattle.std.specs.Prelude.{◌≡◌, ◌↔◌, suc, ℕ, List, Some, slice_get, slice_index, IfOk, OnOk, IsTrue, MatchOption};
ghost use Rattle.tso_ops.specs.Values.{TraceValue};
ghost use Rattle.tso_ops.specs.Events.{event_at};
ghost use Rattle.tso_ops.specs.declared.events.Event.{Event};
ghost use Rattle.tso_model.specs.Axioms.{place, ReadsGreatest};
ghost use Rattle.order_check.specs.Refusals.{IsFirstUnmet, MeetsAll};
ghost use Rattle.program_chains.specs.LogEvents.{as_trace_event, AreEventsOf};
ghost use Rattle.log_order_check.specs.Internal.Progress.{HasPassed};
ghost use Rattle.log_order_check.specs.Internal.Tables.{AreTables, looked_up};

use crate::places::place_in;
use crate::tables::Tables;
use order_check::Axiom;
use program_chains::LogEvent;
use std::alloc::Global;
use std::collections::HashMap;
use tso_ops::OutOfMemory;

/// What is known of a list once some of its events are passed.
#[derive(Drop)]
pub(crate) struct Progress {
    /// For each address the place of the last store to it that is passed, from 1; none where no such store is.
    pub(crate) last: HashMap<u64, usize>,
    /// The greatest place of the stores of swaps whose loads are passed; 0 where no such load is.
    pub(crate) awaited: usize,
}

impl Progress {
    /// That of a list of which no event is passed.
    pub(crate) fn new(alloc: Global) -> Progress
        ensures { (t : TraceValue) (order places : List ℕ) → HasPassed t order places 0 result }
    {
        Progress {
            last: HashMap::new(alloc),
            awaited: 0,
        }
    }

    /// Passes the next event of the list. OutOfMemory where an allocation was refused.
    pub(crate) fn pass(&mut self, tables: &Tables, n: usize) -> Result<(), OutOfMemory>
        ensures { OnOk result ((t : TraceValue) (order : List ℕ) (k : ℕ) → AreTables t order tables.now → HasPassed t order tables.now.places.items k self.old →
            slice_get order k ≡ Some n → HasPassed t order tables.now.places.items (suc k) self.new) }
    {
        let Some(event) = tables.event(n) else {
            return Ok(());
        };
        if event.load {
            if event.swap {
                self.awaited = self.awaited.max(tables.place(n + 1));
            }
        } else {
            self.last.insert(event.address, tables.place(n))?;
        }
        Ok(())
    }

    /// The place of the last store to an address that is passed.
    pub(crate) fn last_place(&self, address: u64) -> usize
        ensures { result ≡ looked_up self.now.last address }
    {
        self.last.get(&address).copied().unwrap_or(0)
    }
}

/// The first axiom that isn't met at event `n` of the list, which has just been passed, or None where all are.
pub(crate) fn first_unmet(
    tables: &Tables,
    progress: &Progress,
    order: &[usize],
    n: usize,
) -> Option<Axiom>
    ensures { (t : TraceValue) → AreTables t order.now tables.now → HasPassed t order.now tables.now.places.items (suc (place order.now n)) progress.now →
        MatchOption result (MeetsAll t order.now n) (IsFirstUnmet t order.now n) }
{
    let event = tables.event(n)?;
    if let Some(axiom) = tables.fault(n) {
        return Some(axiom);
    }
    if event.load {
        if reads_last(tables, progress, order, n, event) {
            return None;
        }
        return Some(Axiom::Value);
    }
    if progress.awaited > tables.place(n) {
        return Some(Axiom::Atomicity);
    }
    None
}

/// Whether a load read what the last store that it sees wrote, or the first value of its address where it sees none.
fn reads_last(
    tables: &Tables,
    progress: &Progress,
    order: &[usize],
    l: usize,
    event: LogEvent,
) -> bool
    ensures { (t : TraceValue) → AreTables t order.now tables.now → HasPassed t order.now tables.now.places.items (suc (place order.now l)) progress.now →
        event_at t l ≡ Some (as_trace_event event) → IsTrue result ↔ ReadsGreatest t order.now l }
{
    let most = tables.own(l).max(progress.last_place(event.address));
    let value = match most.checked_sub(1) {
        Some(k) => stored_value(tables, place_in(order, k)),
        None => tables.first_value(event.address),
    };
    event.value == value
}

/// The value of an event, and 0 where there is none.
fn stored_value(tables: &Tables, n: usize) -> u64
    ensures { (t : TraceValue) (e : Event) → AreEventsOf t tables.now.events.items → event_at t n ≡ Some e → e.value ≡ result }
{
    match tables.event(n) {
        Some(event) => event.value,
        None => 0,
    }
}
