//! Which axioms of program order are met at each event.
ghost use Rattle.std.specs.Prelude.{◌≡◌, suc, ℕ, List, Some, length, slice_index, IfOk};
ghost use Rattle.tso_ops.specs.Values.{TraceValue};
ghost use Rattle.tso_ops.specs.Events.{event_at};
ghost use Rattle.order_check.specs.Internal.Places.{ArePlaces};
ghost use Rattle.program_chains.specs.LogEvents.{AreEventsOf, as_trace_event};
ghost use Rattle.log_order_check.specs.Internal.Bounds.{AreBounds};
ghost use Rattle.log_order_check.specs.Internal.Passed.{IsPassed};
ghost use Rattle.log_order_check.specs.Internal.Most.{IsMost};
ghost use Rattle.log_order_check.specs.Internal.Tables.{AreFaults, AreOwnPlaces, IsProgramFault, IsOwnStore};

use crate::passed::Passed;
use crate::places::place_in;
use order_check::Axiom;
use program_chains::LogEvent;
use std::alloc::Global;
use std::collections::HashMap;
use tso_ops::{Order, OutOfMemory};

/// The greatest places of the events that the axioms of program order want before an event.
#[derive(Clone, Copy, Debug)]
pub(crate) struct Bounds {
    /// Of program-earlier loads.
    pub(crate) loads: usize,
    /// Of program-earlier stores whose order with a store the memory model keeps.
    pub(crate) kept: usize,
    /// Of program-earlier stores before an STBAR.
    pub(crate) stbar: usize,
    /// Of program-earlier stores before a barrier.
    pub(crate) barrier: usize,
}

/// Of each event, by its index, the first of LoadOp, StoreStore, Stbar and Membar that isn't met there, or None where they are.
/// OutOfMemory where an allocation was refused.
pub(crate) fn program_faults(
    alloc: Global,
    model: Order,
    events: &[LogEvent],
    places: &[usize],
    own: &[usize],
) -> Result<Vec<Option<Axiom>>, OutOfMemory>
    ensures { IfOk result (λ faults. (t : TraceValue) (order : List ℕ) → t.setting.order ≡ model → AreEventsOf t events.now → ArePlaces t order places.now →
        AreOwnPlaces t places.now (length events.now) own.now → AreFaults t order (length events.now) faults.items) }
{
    let mut processors = HashMap::new(alloc);
    let mut faults = Vec::with_capacity(alloc, events.len())?;
    for (x, event) in events.iter().enumerate() {
        let place = place_in(places, x + 1);
        let before = processors
            .get(&event.processor)
            .copied()
            .unwrap_or(Passed::NONE);
        let after = before.with(*event, place);
        let bounds = bounds_of(model, before, after, place_in(own, x));
        faults.push(first_fault(*event, place, bounds))?;
        processors.insert(event.processor, after)?;
    }
    Ok(faults)
}

/// The bounds of an event, by what is known of its processor before and after it and by the greatest place of its processor's
/// program-earlier stores to its address.
fn bounds_of(model: Order, before: Passed, after: Passed, own: usize) -> Bounds
    ensures { (t : TraceValue) (places : List ℕ) (x : ℕ) (event : LogEvent) → t.setting.order ≡ model → event_at t (suc x) ≡ Some (as_trace_event event) →
        IsPassed t places x event.processor before → IsPassed t places (suc x) event.processor after →
        after.stbars.count ≡ event.stbars → after.barriers.count ≡ event.barriers → IsMost (IsOwnStore t (suc x)) places own → AreBounds t places (suc x) result }
{
    let kept = match model {
        Order::Tso => before.stores,
        Order::Pso => own,
    };
    Bounds {
        loads: before.loads,
        kept,
        stbar: after.stbars.before,
        barrier: after.barriers.before,
    }
}

/// The first axiom of program order that isn't met at an event of this place, or None where they are.
fn first_fault(event: LogEvent, place: usize, bounds: Bounds) -> Option<Axiom>
    ensures { (t : TraceValue) (order places : List ℕ) (n : ℕ) → event_at t n ≡ Some (as_trace_event event) → ArePlaces t order places → place ≡ slice_index places n →
        AreBounds t places n bounds → IsProgramFault t order n result }
{
    if bounds.loads > place {
        return Some(Axiom::LoadOp);
    }
    if event.load {
        if bounds.barrier > place {
            return Some(Axiom::Membar);
        }
        return None;
    }
    if bounds.kept > place {
        return Some(Axiom::StoreStore);
    }
    if bounds.stbar > place {
        return Some(Axiom::Stbar);
    }
    None
}
