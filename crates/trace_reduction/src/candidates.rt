//! A small trace that is to show a violation, and where its operations and events stand in the whole trace.

use crate::orders::{Ordered, least_order};
use log_selections::{Kept, KnownLog};
use log_text::LogOperation;
use std::alloc::Global;
use tso_ops::{OutOfMemory, Part, Trace};

/// A small trace, with the numbers that its events have in the whole trace, in their order, and the lines of the whole trace's
/// text where its processors' operations stand.
#[derive(Drop)]
pub(crate) struct Candidate {
    pub(crate) trace: Trace,
    pub(crate) origins: Vec<usize>,
    pub(crate) lines: Vec<Vec<usize>>,
}

/// The trace of these operations of each processor, its processors in the order of the least text: None where they are no
/// trace. OutOfMemory where an allocation was refused.
pub(crate) fn candidate_of(
    alloc: Global,
    known: &KnownLog,
    kept: &[Vec<Kept>],
) -> Result<Option<Candidate>, OutOfMemory> {
    match known.trace_of(alloc, kept)? {
        Some(trace) => candidate_in_order(alloc, known, kept, least_order(alloc, trace)?),
        None => Ok(None),
    }
}

/// The trace of these operations of each processor, its processors in the order in which they are. OutOfMemory where an allocation
/// was refused.
pub(crate) fn candidate_as_it_is(
    alloc: Global,
    known: &KnownLog,
    kept: &[Vec<Kept>],
) -> Result<Option<Candidate>, OutOfMemory> {
    match known.trace_of(alloc, kept)? {
        Some(trace) => candidate_in_order(alloc, known, kept, Ordered::new(alloc, trace)?),
        None => Ok(None),
    }
}

/// The trace of these operations of each processor, with where they stand.
fn candidate_in_order(
    alloc: Global,
    known: &KnownLog,
    kept: &[Vec<Kept>],
    ordered: Ordered,
) -> Result<Option<Candidate>, OutOfMemory> {
    let Ordered { trace, order, .. } = ordered;
    let present = present_in(alloc, kept)?;
    let mut candidate = Candidate {
        trace,
        origins: Vec::new(alloc),
        lines: Vec::new(alloc),
    };
    for place in &order {
        if let Some(processor) = present.get(*place)
            && let Some(list) = kept.get(*processor)
        {
            candidate.push_processor(alloc, known, *processor, list)?;
        }
    }
    Ok(Some(candidate))
}

/// The processors of which something is kept.
fn present_in(alloc: Global, kept: &[Vec<Kept>]) -> Result<Vec<usize>, OutOfMemory> {
    let mut present = Vec::new(alloc);
    for (processor, list) in kept.iter().enumerate() {
        if !list.is_empty() {
            present.push(processor)?;
        }
    }
    Ok(present)
}

impl Candidate {
    /// Pushes where these operations of a processor stand.
    fn push_processor(
        &mut self,
        alloc: Global,
        known: &KnownLog,
        processor: usize,
        list: &[Kept],
    ) -> Result<(), OutOfMemory> {
        let mut lines = Vec::new(alloc);
        for kept in list {
            if let Some(logged) = known.log().lists.get(processor)
                && let Some(numbers) = known.numbers().get(processor)
                && let Some(logged) = logged.get(kept.index)
                && let Some(number) = numbers.get(kept.index)
            {
                lines.push(logged.line)?;
                push_origins(&mut self.origins, logged.operation, kept.part, *number)?;
            }
        }
        self.lines.push(lines)?;
        Ok(())
    }
}

/// Pushes the numbers of the events that this part of an operation gives, the first event of which has this number.
fn push_origins(
    origins: &mut Vec<usize>,
    operation: LogOperation,
    part: Part,
    number: usize,
) -> Result<(), OutOfMemory> {
    match (operation, part) {
        (LogOperation::Mb | LogOperation::Sb, _) => {}
        (LogOperation::Sw { .. }, Part::SwapStore) => origins.push(number.saturating_add(1))?,
        (LogOperation::Sw { .. }, Part::Whole) => {
            origins.push(number)?;
            origins.push(number.saturating_add(1))?;
        }
        _ => origins.push(number)?,
    }
    Ok(())
}
