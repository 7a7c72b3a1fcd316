ghost use Rattle.std.specs.Prelude.{◌≡◌, ℕ, ◌++◌, ◌<◌, Some, length, IfOk, OnOk};
ghost use Rattle.tso_ops.specs.Values.{TraceValue, rows};
ghost use Rattle.tso_ops.specs.Limits.{IsTrace};
ghost use Rattle.tso_ops.specs.Events.{event_at, events_from, events_of, events_of_lists};
ghost use Rattle.tso_ops.specs.Internal.Tables.{AreSources, FindsStores, IsSourceRow};

use crate::events::{Event, Source};
use crate::faults::OutOfMemory;
use crate::ops::Outcome;
use crate::settings::first_at;
use std::alloc::Global;
use std::collections::BTreeMap;

/// The events of a trace with these lists, in file order.
pub(crate) fn list_events(alloc: Global, lists: &[Vec<Outcome>]) -> Result<Vec<Event>, OutOfMemory>
    ensures { IfOk result (λ events. events.items ≡ events_of_lists 0 (rows lists.now)) }
{
    let mut events = Vec::new(alloc);
    for (proc, list) in lists.iter().enumerate() {
        push_events(&mut events, proc, list)?;
    }
    Ok(events)
}

/// The event of this place that is a load or a store, of this address and with this value.
fn event_of(place: Event, load: bool, a: u16, value: u64) -> Event
    ensures { result ≡ record { proc = place.proc; load = load; swap = place.swap; a = a; value = value; bars = place.bars; stbars = place.stbars } }
{
    Event {
        load,
        a,
        value,
        ..place
    }
}

/// Pushes the events of one processor.
fn push_events(events: &mut Vec<Event>, proc: usize, list: &[Outcome]) -> Result<(), OutOfMemory>
    ensures { OnOk result (events.new.items ≡ events.old.items ++ events_from proc 0 0 list.now) }
{
    let mut bars = 0;
    let mut stbars = 0;
    for outcome in list {
        let place = Event {
            proc,
            load: true,
            swap: matches!(outcome, Outcome::Sw { .. }),
            a: 0,
            value: 0,
            bars,
            stbars,
        };
        match *outcome {
            Outcome::Ld { a, r } => events.push(event_of(place, true, a, r))?,
            Outcome::St { a, v } => events.push(event_of(place, false, a, v))?,
            Outcome::Sw { a, r, v } => {
                let load = event_of(place, true, a, r);
                let store = event_of(place, false, a, v);
                events.push(load)?;
                events.push(store)?;
            }
            Outcome::Mb => bars += 1,
            Outcome::Sb => stbars += 1,
        }
    }
    Ok(())
}

/// The source of each load among the events of a trace with these first values, and None for a store.
pub(crate) fn list_sources(
    alloc: Global,
    first: &[(u16, u64)],
    events: &[Event],
) -> Result<Vec<Option<Source>>, OutOfMemory>
    ensures { (t : TraceValue) → IsTrace t → t.setting.first ≡ first.now → events_of t ≡ events.now → IfOk result (λ sources. AreSources t sources.items) }
{
    let stores = stores_by_value(alloc, events)?;
    let mut sources = Vec::new(alloc);
    for event in events {
        sources.push(source_of(&stores, first, events, *event))?;
    }
    Ok(sources)
}

/// The number of the store of each value.
fn stores_by_value(alloc: Global, events: &[Event]) -> Result<BTreeMap<u64, usize>, OutOfMemory>
    ensures { IfOk result (FindsStores events.now (length events.now)) }
{
    let mut stores = BTreeMap::new(alloc);
    for (k, event) in events.iter().enumerate() {
        if !event.load {
            stores.insert(event.value, k + 1)?;
        }
    }
    Ok(stores)
}

/// Where the value of an event comes from, if it is a load.
fn source_of(
    stores: &BTreeMap<u64, usize>,
    first: &[(u16, u64)],
    events: &[Event],
    event: Event,
) -> Option<Source>
    requires { FindsStores events.now (length events.now) stores.now }
    ensures { (t : TraceValue) (n : ℕ) → IsTrace t → t.setting.first ≡ first.now → events_of t ≡ events.now → event_at t n ≡ Some event →
        IsSourceRow t n result }
{
    if !event.load {
        return None;
    }
    if event.value == first_at(first, event.a) {
        return Some(Source::Init);
    }
    match stores.get(&event.value) {
        Some(n) if events[*n - 1].a == event.a => Some(Source::Store(*n)),
        _ => Some(Source::Unwritten),
    }
}
