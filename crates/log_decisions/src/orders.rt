//! An order of all events of a log, by an order of its stores: loads come as soon as they read what they did.

use log_text::Log;
use program_chains::{LogEvent, log_events};
use std::alloc::Global;
use std::collections::HashMap;
use tso_ops::OutOfMemory;

/// The events of a processor, by their indices, as far as they have come.
#[derive(Clone, Copy)]
struct Front {
    /// The next load, or the end of the processor's events.
    load: usize,
    /// The first store that hasn't come, or the end.
    store: usize,
    end: usize,
}

/// The events that have come, and what memory has.
#[derive(Drop)]
struct Replay {
    events: Vec<LogEvent>,
    /// Of each load its processor's last store to its address before it, as its index plus 1; 0 where there is none.
    own: Vec<usize>,
    fronts: Vec<Front>,
    has_come: Vec<bool>,
    memory: HashMap<u64, u64>,
    order: Vec<usize>,
}

/// An order of all events of a log in which its stores come in this order, by the numbers of events; a part of one where the loads don't
/// fit in. OutOfMemory where an allocation was refused.
pub(crate) fn order_of_stores(
    alloc: Global,
    log: &Log,
    stores: &[usize],
) -> Result<Vec<usize>, OutOfMemory> {
    let events = log_events(alloc, log)?;
    let mut replay = Replay {
        own: own_stores(alloc, &events)?,
        fronts: fronts_of(alloc, &events, log.lists.len())?,
        has_come: vec![in alloc; false; events.len()]?,
        memory: HashMap::new(alloc),
        order: Vec::with_capacity(alloc, events.len())?,
        events,
    };
    for (address, value) in &log.first {
        replay.memory.insert(*address, *value)?;
    }
    replay.take_loads()?;
    for store in stores {
        replay.take_store(store.saturating_sub(1))?;
        replay.take_loads()?;
    }
    Ok(replay.order)
}

/// Of each load its processor's last store to its address before it.
fn own_stores(alloc: Global, events: &[LogEvent]) -> Result<Vec<usize>, OutOfMemory> {
    let mut last = HashMap::new(alloc);
    let mut own = Vec::with_capacity(alloc, events.len())?;
    for (index, event) in events.iter().enumerate() {
        let key = (event.processor, event.address);
        if event.load {
            own.push(last.get(&key).copied().unwrap_or(0))?;
        } else {
            last.insert(key, index.saturating_add(1))?;
            own.push(0)?;
        }
    }
    Ok(own)
}

/// Where each processor's events begin and end.
fn fronts_of(
    alloc: Global,
    events: &[LogEvent],
    processors: usize,
) -> Result<Vec<Front>, OutOfMemory> {
    let nothing = Front {
        load: 0,
        store: 0,
        end: 0,
    };
    let mut fronts = vec![in alloc; nothing; processors]?;
    for (index, event) in events.iter().enumerate() {
        if let Some(front) = fronts.get_mut(event.processor) {
            if front.end == 0 {
                front.load = index;
                front.store = index;
            }
            front.end = index.saturating_add(1);
        }
    }
    Ok(fronts)
}

impl Replay {
    /// The event at an index.
    fn event(&self, index: usize) -> Option<LogEvent> {
        self.events.get(index).copied()
    }

    /// Whether the event at an index has come.
    fn is_past(&self, index: usize) -> bool {
        self.has_come.get(index).copied().unwrap_or(true)
    }

    /// Lets loads come that can.
    fn take_loads(&mut self) -> Result<(), OutOfMemory> {
        for processor in 0..self.fronts.len() {
            self.take_loads_of(processor)?;
        }
        Ok(())
    }

    /// Lets the next loads of a processor come, up to one that can't, or is a swap's.
    fn take_loads_of(&mut self, processor: usize) -> Result<(), OutOfMemory> {
        for _ in 0..self.events.len() {
            let Some(load) = self.next_load(processor) else {
                break;
            };
            match self.event(load) {
                Some(event) if !event.swap && self.can_come(load, event) => self.take(load)?,
                _ => break,
            }
        }
        Ok(())
    }

    /// The next load of a processor.
    fn next_load(&mut self, processor: usize) -> Option<usize> {
        let front = self.fronts.get(processor).copied()?;
        let mut load = front.load;
        for index in front.load..front.end {
            load = index;
            if self.is_load_left(index) {
                break;
            }
            load = front.end;
        }
        if let Some(front) = self.fronts.get_mut(processor) {
            front.load = load;
        }
        if load < front.end { Some(load) } else { None }
    }

    fn is_load_left(&self, index: usize) -> bool {
        match self.event(index) {
            Some(event) => event.load && !self.is_past(index),
            None => false,
        }
    }

    /// Whether the next load of its processor can come: all stores before the last barrier before it have, and it reads what it did.
    fn can_come(&mut self, load: usize, event: LogEvent) -> bool {
        let is_free = match self.first_store_left(event.processor) {
            Some(store) => store > load || self.barriers_at(store) >= event.barriers,
            None => true,
        };
        is_free && self.value_read(load, event.address) == event.value
    }

    fn barriers_at(&self, index: usize) -> usize {
        match self.event(index) {
            Some(event) => event.barriers,
            None => usize::MAX,
        }
    }

    /// The first store of a processor that hasn't come.
    fn first_store_left(&mut self, processor: usize) -> Option<usize> {
        let front = self.fronts.get(processor).copied()?;
        let mut store = front.end;
        for index in front.store..front.end {
            if let Some(event) = self.event(index)
                && !event.load
                && !self.is_past(index)
            {
                store = index;
                break;
            }
        }
        if let Some(front) = self.fronts.get_mut(processor) {
            front.store = store;
        }
        if store < front.end { Some(store) } else { None }
    }

    /// What a load reads if it comes now.
    fn value_read(&self, load: usize, address: u64) -> u64 {
        let own = self.own.get(load).copied().unwrap_or(0);
        if let Some(store) = own.checked_sub(1)
            && !self.is_past(store)
            && let Some(event) = self.event(store)
        {
            return event.value;
        }
        self.memory.get(&address).copied().unwrap_or(0)
    }

    /// Lets a store come, and the load of its swap before it.
    fn take_store(&mut self, store: usize) -> Result<(), OutOfMemory> {
        let Some(event) = self.event(store) else {
            return Ok(());
        };
        if event.swap {
            self.take(store.saturating_sub(1))?;
        }
        self.memory.insert(event.address, event.value)?;
        self.take(store)
    }

    fn take(&mut self, index: usize) -> Result<(), OutOfMemory> {
        if let Some(has_come) = self.has_come.get_mut(index) {
            *has_come = true;
        }
        Ok(self.order.push(index.saturating_add(1))?)
    }
}
