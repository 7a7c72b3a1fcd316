//! Fewer operations that are still accused.

use crate::lookups::{logged_at, number_of, source_of};
use crate::selections::{empty_lists, push_kept};
use log_selections::{Kept, KnownLog};
use log_text::LogOperation;
use search_memory::Memory;
use std::alloc::Global;
use std::collections::HashSet;
use tso_ops::{OutOfMemory, Part};

/// What says whether operations of a log have no order.
pub trait Judge {
    /// Whether these operations of each processor are accused. OutOfMemory where an allocation was refused.
    fn accuses(&mut self, kept: &[Vec<Kept>]) -> Result<bool, OutOfMemory>;

    /// Whether it judges nothing more: then nothing more is left out.
    fn is_done(&self) -> bool {
        false
    }
}

/// An operation of a processor.
pub(crate) type Entry = (usize, Kept);

/// Leaves out operations of a log that a judge accuses, as long as it accuses what is left: half of them, a quarter, .., and
/// then single ones, until there is none without which the others are accused, or the judge is done.
///
/// A load goes with its source; of a swap whose load goes the store stays. OutOfMemory where an allocation was refused.
pub fn reduce<J: Judge>(
    alloc: Global,
    known: &KnownLog,
    kept: Vec<Vec<Kept>>,
    judge: &mut J,
) -> Result<Vec<Vec<Kept>>, OutOfMemory> {
    let memory = Memory::new(alloc);
    let entries = list(&memory, &kept);
    let mut reduction = Reduction {
        memory,
        known,
        judge,
        entries,
    };
    reduction.leave_out_halves()?;
    reduction.leave_out_singles()?;
    let lists = gather(&reduction.memory, known, &reduction.entries);
    reduction.memory.whole(lists)
}

/// The operations that are left, and what is asked about them.
#[derive(Drop)]
struct Reduction<'a, J> {
    memory: Memory,
    known: &'a KnownLog,
    judge: &'a mut J,
    entries: Vec<Entry>,
}

impl<J: Judge> Reduction<'_, J> {
    /// Leaves out half of the operations at a time, a quarter, .., two.
    fn leave_out_halves(&mut self) -> Result<(), OutOfMemory> {
        let mut size = self.entries.len();
        for _ in 0..usize::BITS {
            size = size.div_ceil(2);
            if size <= 1 {
                break;
            }
            self.leave_out_parts(size)?;
        }
        Ok(())
    }

    /// Leaves out single operations, in passes, until none can be left out.
    fn leave_out_singles(&mut self) -> Result<(), OutOfMemory> {
        for _ in 0..self.entries.len() {
            let before = self.entries.len();
            self.leave_out_parts(1)?;
            if self.entries.len() == before {
                break;
            }
        }
        Ok(())
    }

    /// Leaves out each part of so many operations without which the others are still accused. Barriers go only as single ones.
    fn leave_out_parts(&mut self, size: usize) -> Result<(), OutOfMemory> {
        let mut at: usize = 0;
        for _ in 0..self.entries.len().saturating_mul(2) {
            if at >= self.entries.len() || self.judge.is_done() {
                break;
            }
            if !self.leaves_out(at, size)? {
                at = at.saturating_add(size);
            }
        }
        Ok(())
    }

    /// Leaves out so many operations from an index on, if the others are still accused, and answers whether they are.
    fn leaves_out(&mut self, at: usize, size: usize) -> Result<bool, OutOfMemory> {
        let fewer = without(&self.memory, self.known, &self.entries, at, size);
        let is_left = fewer.len() < self.entries.len() && self.accuses(&fewer)?;
        if is_left {
            self.entries = fewer;
        }
        Ok(is_left)
    }

    /// Whether the judge accuses these operations.
    fn accuses(&mut self, entries: &[Entry]) -> Result<bool, OutOfMemory> {
        let lists = gather(&self.memory, self.known, entries);
        let lists = self.memory.whole(lists)?;
        self.judge.accuses(&lists)
    }
}

/// The operations, one processor's after the other's.
pub(crate) fn list(memory: &Memory, kept: &[Vec<Kept>]) -> Vec<Entry> {
    let mut entries = Vec::new(memory.alloc());
    for (processor, list) in kept.iter().enumerate() {
        for kept in list {
            memory.push(&mut entries, (processor, *kept));
        }
    }
    entries
}

/// These operations by their processors.
pub(crate) fn gather(memory: &Memory, known: &KnownLog, entries: &[Entry]) -> Vec<Vec<Kept>> {
    let mut lists = empty_lists(memory, known.log().lists.len());
    for (processor, kept) in entries {
        push_kept(memory, &mut lists, *processor, *kept);
    }
    lists
}

fn is_barrier(known: &KnownLog, entry: Entry) -> bool {
    match logged_at(known, entry.0, entry.1.index) {
        Some(logged) => matches!(logged.operation, LogOperation::Mb | LogOperation::Sb),
        None => false,
    }
}

/// The operations without so many from an index on, and without loads whose sources are gone. Of several, barriers stay.
fn without(
    memory: &Memory,
    known: &KnownLog,
    entries: &[Entry],
    from: usize,
    size: usize,
) -> Vec<Entry> {
    let to = from.saturating_add(size);
    let mut left = Vec::new(memory.alloc());
    for (index, entry) in entries.iter().enumerate() {
        let is_outside = index < from || index >= to;
        if is_outside || (size > 1 && is_barrier(known, *entry)) {
            memory.push(&mut left, *entry);
        }
    }
    with_sources(memory, known, &left)
}

/// The operations without loads whose sources aren't among them.
pub(crate) fn with_sources(memory: &Memory, known: &KnownLog, entries: &[Entry]) -> Vec<Entry> {
    let stores = stores_of(memory, known, entries);
    let mut fewer = Vec::new(memory.alloc());
    for (processor, kept) in entries {
        if let Some(part) = part_left(known, (*processor, *kept), &stores) {
            let index = kept.index;
            memory.push(&mut fewer, (*processor, Kept { index, part }));
        }
    }
    fewer
}

/// The numbers of the stores of operations.
fn stores_of(memory: &Memory, known: &KnownLog, entries: &[Entry]) -> HashSet<usize> {
    let mut stores = HashSet::new(memory.alloc());
    for entry in entries {
        if let Some(number) = store_of(known, *entry) {
            memory.note(stores.insert(number).is_err());
        }
    }
    stores
}

/// The number of the store of an operation.
fn store_of(known: &KnownLog, entry: Entry) -> Option<usize> {
    let (processor, kept) = entry;
    let Some(logged) = logged_at(known, processor, kept.index) else {
        return None;
    };
    let number = number_of(known, processor, kept.index);
    match (logged.operation, number) {
        (LogOperation::St { .. }, Some(number)) => Some(number),
        (LogOperation::Sw { .. }, Some(number)) if kept.part != Part::SwapLoad => {
            number.checked_add(1)
        }
        _ => None,
    }
}

/// What is left of an operation with these stores.
fn part_left(known: &KnownLog, entry: Entry, stores: &HashSet<usize>) -> Option<Part> {
    let (processor, kept) = entry;
    let Some(logged) = logged_at(known, processor, kept.index) else {
        return None;
    };
    if has_source(known, processor, kept.index, stores) {
        return Some(kept.part);
    }
    match (logged.operation, kept.part) {
        (LogOperation::Ld { .. }, _) | (LogOperation::Sw { .. }, Part::SwapLoad) => None,
        (LogOperation::Sw { .. }, Part::Whole) => Some(Part::SwapStore),
        (_, part) => Some(part),
    }
}

/// Whether the load of an operation reads the first value or one of these stores.
fn has_source(
    known: &KnownLog,
    processor: usize,
    operation: usize,
    stores: &HashSet<usize>,
) -> bool {
    let Some(number) = number_of(known, processor, operation) else {
        return false;
    };
    match source_of(known, number) {
        Some(source) => source == 0 || stores.contains(&source),
        None => false,
    }
}
