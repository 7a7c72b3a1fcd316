//! The stores of a processor that its later events to the same address see.
ghost use Rattle.std.specs.Prelude.{◌≡◌, ℕ, List, length, IfOk};
ghost use Rattle.tso_ops.specs.Values.{TraceValue};
ghost use Rattle.program_chains.specs.LogEvents.{AreEventsOf};
ghost use Rattle.log_order_check.specs.Internal.Tables.{AreOwnPlaces};

use crate::places::place_in;
use program_chains::LogEvent;
use std::alloc::Global;
use std::collections::HashMap;
use tso_ops::OutOfMemory;

/// Of each event, by its index, the greatest place of its processor's program-earlier stores to its address, and 0 where there is
/// none. OutOfMemory where an allocation was refused.
pub(crate) fn own_places(
    alloc: Global,
    events: &[LogEvent],
    places: &[usize],
) -> Result<Vec<usize>, OutOfMemory>
    ensures { IfOk result (λ own. (t : TraceValue) → AreEventsOf t events.now → AreOwnPlaces t places.now (length events.now) own.items) }
{
    let mut stores = HashMap::new(alloc);
    let mut own = Vec::with_capacity(alloc, events.len())?;
    for (x, event) in events.iter().enumerate() {
        let key = (event.processor, event.address);
        let most: usize = stores.get(&key).copied().unwrap_or(0);
        own.push(most)?;
        if !event.load {
            stores.insert(key, most.max(place_in(places, x + 1)))?;
        }
    }
    Ok(own)
}
