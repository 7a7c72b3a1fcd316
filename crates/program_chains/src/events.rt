//! The events of a log: its loads and stores.
ghost use Rattle.std.specs.Prelude.{◌≡◌, ◌++◌, ◌<◌, ◌+◌, ◌^◌, map, IfOk, OnOk};
ghost use Rattle.tso_ops.specs.Events.{events_from, events_of_lists};
ghost use Rattle.tso_ops.specs.Values.{rows};
ghost use Rattle.log_text.specs.LogValues.{logged_outcomes};
ghost use Rattle.program_chains.specs.LogEvents.{AreEventsOf, as_trace_event, log_trace};
ghost use Rattle.program_chains.specs.Internal.Places.{PushesOperation};

use log_text::{Log, LogOperation, LoggedOperation};
use std::alloc::Global;
use tso_ops::OutOfMemory;

/// A load or a store of a log, also the load or the store of a swap.
#[derive(Clone, Copy, Debug, PartialEq, Eq)]
pub struct LogEvent {
    /// The processor, from 0.
    pub processor: usize,
    /// Whether it is a load; else it is a store.
    pub load: bool,
    /// Whether it is the load or the store of a swap.
    pub swap: bool,
    /// The address, any number of 64 bits.
    pub address: u64,
    /// The value that it read or stored.
    pub value: u64,
    /// How many barriers (`Mb`) stand before it on its processor.
    pub barriers: usize,
    /// How many STBARs stand before it on its processor.
    pub stbars: usize,
}

/// Where an operation of a processor stands: how many barriers and STBARs of the processor stand before it.
#[derive(Clone, Copy)]
pub(crate) struct Place {
    pub(crate) processor: usize,
    pub(crate) barriers: usize,
    pub(crate) stbars: usize,
}

/// The events of a log in the order of their numbers: event number n, from 1, is item n - 1. A swap gives its load and then
/// its store, a barrier none. OutOfMemory where an allocation was refused.
pub fn log_events(alloc: Global, log: &Log) -> Result<Vec<LogEvent>, OutOfMemory>
    ensures { IfOk result (λ events. AreEventsOf (log_trace log.now) events.items) }
{
    list_events(alloc, &log.lists)
}

/// The events of these lists, of which the first is processor 0's.
fn list_events(alloc: Global, lists: &[Vec<LoggedOperation>]) -> Result<Vec<LogEvent>, OutOfMemory>
    ensures { IfOk result (λ events. map as_trace_event events.items ≡ events_of_lists 0 (map logged_outcomes (rows lists.now))) }
{
    let mut events = Vec::new(alloc);
    for (processor, list) in lists.iter().enumerate() {
        push_list(processor, list, &mut events)?;
    }
    Ok(events)
}

/// Pushes the events of one processor.
fn push_list(
    processor: usize,
    list: &[LoggedOperation],
    events: &mut Vec<LogEvent>,
) -> Result<(), OutOfMemory>
    ensures { OnOk result (map as_trace_event events.new.items ≡ map as_trace_event events.old.items ++ events_from processor 0 0 (logged_outcomes list.now)) }
{
    let mut place = Place {
        processor,
        barriers: 0,
        stbars: 0,
    };
    for logged in list {
        place = push_operation(place, logged.operation, events)?;
    }
    Ok(())
}

/// Pushes the events of the operation at a place: the place after it.
fn push_operation(
    place: Place,
    operation: LogOperation,
    events: &mut Vec<LogEvent>,
) -> Result<Place, OutOfMemory>
    requires barriers { place.barriers + 1 < 2 ^ 64 }
    requires stbars { place.stbars + 1 < 2 ^ 64 }
    ensures { IfOk result (λ next. PushesOperation place operation events.old.items next events.new.items) }
{
    match operation {
        LogOperation::Ld { a, r } => events.push(event_at(place, false, true, a, r))?,
        LogOperation::St { a, v } => events.push(event_at(place, false, false, a, v))?,
        LogOperation::Sw { a, r, v } => {
            events.push(event_at(place, true, true, a, r))?;
            events.push(event_at(place, true, false, a, v))?;
        }
        LogOperation::Mb => {
            return Ok(Place {
                barriers: place.barriers + 1,
                ..place
            });
        }
        LogOperation::Sb => {
            return Ok(Place {
                stbars: place.stbars + 1,
                ..place
            });
        }
    }
    Ok(place)
}

/// The event at a place that is a load or a store, of a swap or not, of this address and value.
fn event_at(place: Place, swap: bool, load: bool, address: u64, value: u64) -> LogEvent
    ensures { result ≡ record { processor = place.processor; load = load; swap = swap; address = address; value = value; barriers = place.barriers; stbars = place.stbars } }
{
    LogEvent {
        processor: place.processor,
        load,
        swap,
        address,
        value,
        barriers: place.barriers,
        stbars: place.stbars,
    }
}
