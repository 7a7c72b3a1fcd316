//! Parts of a trace's operations.

use log_selections::Kept;
use std::alloc::Global;
use tso_ops::{OutOfMemory, Part, Trace};

/// Which part of each operation of each processor is marked, if one is, and of how many operations.
#[derive(Drop)]
pub(crate) struct Parts {
    marked: Vec<Vec<Option<Part>>>,
    count: usize,
}

impl Parts {
    /// No part of any operation of a trace. OutOfMemory where an allocation was refused.
    pub(crate) fn none(alloc: Global, trace: &Trace) -> Result<Parts, OutOfMemory> {
        let mut marked = Vec::new(alloc);
        for p in 0..trace.processors() {
            marked.push(unmarked(alloc, trace.ops(p).len())?)?;
        }
        Ok(Parts { marked, count: 0 })
    }

    /// Marks a part of a processor's operation, beside what is marked of it.
    pub(crate) fn mark(&mut self, processor: usize, index: usize, part: Part) {
        if let Some(list) = self.marked.get_mut(processor)
            && let Some(marked) = list.get_mut(index)
        {
            if marked.is_none() {
                self.count = self.count.saturating_add(1);
            }
            *marked = Some(both(*marked, part));
        }
    }

    /// The marked parts of each processor's operations. OutOfMemory where an allocation was refused.
    pub(crate) fn lists(&self, alloc: Global) -> Result<Vec<Vec<Kept>>, OutOfMemory> {
        let mut lists = Vec::new(alloc);
        for marked in &self.marked {
            lists.push(marked_list(alloc, marked)?)?;
        }
        Ok(lists)
    }

    /// Whether all marked parts are among these operations.
    pub(crate) fn are_in(&self, kept: &[Vec<Kept>]) -> bool {
        let mut count: usize = 0;
        for (processor, list) in kept.iter().enumerate() {
            if let Some(marked) = self.marked.get(processor) {
                count = count.saturating_add(count_in(marked, list));
            }
        }
        count == self.count
    }
}

/// No part of so many operations.
fn unmarked(alloc: Global, count: usize) -> Result<Vec<Option<Part>>, OutOfMemory> {
    let mut marked = Vec::with_capacity(alloc, count)?;
    for _ in 0..count {
        marked.push(None)?;
    }
    Ok(marked)
}

/// The marked parts of a processor's operations.
fn marked_list(alloc: Global, marked: &[Option<Part>]) -> Result<Vec<Kept>, OutOfMemory> {
    let mut list = Vec::new(alloc);
    for (index, part) in marked.iter().enumerate() {
        if let Some(part) = *part {
            list.push(Kept { index, part })?;
        }
    }
    Ok(list)
}

/// How many operations of a processor are among these with what is marked of them.
fn count_in(marked: &[Option<Part>], list: &[Kept]) -> usize {
    let mut count: usize = 0;
    for kept in list {
        if let Some(Some(part)) = marked.get(kept.index)
            && (kept.part == Part::Whole || kept.part == *part)
        {
            count = count.saturating_add(1);
        }
    }
    count
}

/// A part of an operation, beside what is marked of it.
fn both(marked: Option<Part>, part: Part) -> Part {
    match marked {
        Some(other) if other != part => Part::Whole,
        _ => part,
    }
}
