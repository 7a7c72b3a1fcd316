//! Operations of a log within the limits of traces, or fewer that are.

use crate::lookups::logged_at;
use crate::reduction::{Entry, Judge, gather, list, with_sources};
use crate::surveys::address_of;
use log_selections::{Kept, KnownLog};
use log_text::LogOperation;
use search_memory::Memory;
use std::alloc::Global;
use std::collections::HashMap;
use tso_ops::{OutOfMemory, Part};

/// How many processors a trace has at most.
const MAX_PROCESSORS: usize = 16;

/// How many addresses a trace has at most.
const MAX_ADDRESSES: usize = 256;

/// How many events a trace has at most, and how many barriers.
const MAX_EVENTS: usize = 8_000;

/// Whether these operations of a log are within the limits of a trace: 16 processors, 256 addresses, 8,000 events and as many
/// barriers. OutOfMemory where an allocation was refused.
pub fn is_within_limits(
    alloc: Global,
    known: &KnownLog,
    kept: &[Vec<Kept>],
) -> Result<bool, OutOfMemory> {
    let memory = Memory::new(alloc);
    let entries = list(&memory, kept);
    let processors = by_processor(&memory, &entries).count;
    let addresses = by_address(&memory, known, &entries).count;
    let (events, barriers) = count_events(known, &entries);
    let is_within = processors <= MAX_PROCESSORS
        && addresses <= MAX_ADDRESSES
        && events <= MAX_EVENTS
        && barriers <= MAX_EVENTS;
    memory.whole(is_within)
}

/// Leaves out the operations of some processors, or else those at some addresses, as many as are too many for a trace, so that a
/// judge accuses the others: None where it accuses none of those that were tried. A load goes with its source. OutOfMemory where
/// an allocation was refused.
pub fn fit_trace<J: Judge>(
    alloc: Global,
    known: &KnownLog,
    kept: &[Vec<Kept>],
    judge: &mut J,
) -> Result<Option<Vec<Vec<Kept>>>, OutOfMemory> {
    let memory = Memory::new(alloc);
    let entries = list(&memory, kept);
    let trial = Trial {
        memory: &memory,
        known,
        entries: &entries,
    };
    let processors = by_processor(&memory, &entries);
    let mut found = trial.leave_out(&processors, MAX_PROCESSORS, judge)?;
    if found.is_none() {
        let addresses = by_address(&memory, known, &entries);
        found = trial.leave_out(&addresses, MAX_ADDRESSES, judge)?;
    }
    memory.whole(found)
}

/// Operations by what they have in common, a processor or an address.
#[derive(Drop)]
struct Groups {
    /// The number of each operation's group, from 0; none for a barrier that is at no address.
    numbers: Vec<Option<usize>>,
    /// How many groups there are.
    count: usize,
}

/// Operations of a log, of which groups are left out.
#[derive(Drop)]
struct Trial<'a> {
    memory: &'a Memory,
    known: &'a KnownLog,
    entries: &'a [Entry],
}

impl Trial<'_> {
    /// Leaves out as many groups that follow each other as are more than so many, the first ones, the next ones, .., until the
    /// others are accused.
    fn leave_out<J: Judge>(
        &self,
        groups: &Groups,
        most: usize,
        judge: &mut J,
    ) -> Result<Option<Vec<Vec<Kept>>>, OutOfMemory> {
        let excess = groups.count.saturating_sub(most);
        if excess == 0 {
            return Ok(None);
        }
        let mut from: usize = 0;
        for _ in 0..groups.count.div_ceil(excess) {
            let fewer = self.without(groups, from, excess);
            if judge.accuses(&fewer)? {
                return Ok(Some(fewer));
            }
            from = from.saturating_add(excess);
        }
        Ok(None)
    }

    /// The operations without so many groups from this one on, and without loads whose sources are gone.
    fn without(&self, groups: &Groups, from: usize, count: usize) -> Vec<Vec<Kept>> {
        let to = from.saturating_add(count);
        let mut left = Vec::new(self.memory.alloc());
        for (entry, number) in self.entries.iter().zip(&groups.numbers) {
            let is_gone = match number {
                Some(number) => *number >= from && *number < to,
                None => false,
            };
            if !is_gone {
                self.memory.push(&mut left, *entry);
            }
        }
        let left = with_sources(self.memory, self.known, &left);
        gather(self.memory, self.known, &left)
    }
}

/// The operations by their processors, of which one's stand after the other's.
fn by_processor(memory: &Memory, entries: &[Entry]) -> Groups {
    let mut numbers = Vec::new(memory.alloc());
    let mut last = None;
    let mut count: usize = 0;
    for (processor, _) in entries {
        if last != Some(*processor) {
            last = Some(*processor);
            count = count.saturating_add(1);
        }
        memory.push(&mut numbers, Some(count.saturating_sub(1)));
    }
    Groups { numbers, count }
}

/// The operations by their addresses.
fn by_address(memory: &Memory, known: &KnownLog, entries: &[Entry]) -> Groups {
    let mut numbers = Vec::new(memory.alloc());
    let mut addresses = HashMap::new(memory.alloc());
    for (processor, kept) in entries {
        let number = match logged_at(known, *processor, kept.index) {
            Some(logged) => number_at(memory, &mut addresses, logged.operation),
            None => None,
        };
        memory.push(&mut numbers, number);
    }
    Groups {
        numbers,
        count: addresses.len(),
    }
}

/// The number of the address of an operation, the next one where it is new.
fn number_at(
    memory: &Memory,
    addresses: &mut HashMap<u64, usize>,
    operation: LogOperation,
) -> Option<usize> {
    let a = address_of(operation)?;
    if let Some(number) = addresses.get(&a).copied() {
        return Some(number);
    }
    let number = addresses.len();
    memory.note(addresses.insert(a, number).is_err());
    Some(number)
}

/// How many events operations give, and how many barriers they are.
fn count_events(known: &KnownLog, entries: &[Entry]) -> (usize, usize) {
    let mut events: usize = 0;
    let mut barriers: usize = 0;
    for (processor, kept) in entries {
        let Some(logged) = logged_at(known, *processor, kept.index) else {
            continue;
        };
        match logged.operation {
            LogOperation::Sw { .. } if kept.part == Part::Whole => {
                events = events.saturating_add(2);
            }
            LogOperation::Mb | LogOperation::Sb => barriers = barriers.saturating_add(1),
            _ => events = events.saturating_add(1),
        }
    }
    (events, barriers)
}
