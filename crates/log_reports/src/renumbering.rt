//! Evidence about a log of which loads were dropped, as evidence about the whole log.

use log_text::Log;
use std::alloc::Global;
use tso_ops::OutOfMemory;
use value_evidence::{ValueEnd, ValueEvidence, ValueRefutationLine, ValueStep};
use value_texts::{EventName, names_of};

/// The numbers that the events of a log have in another one, of which it has only some operations.
///
/// Evidence about the one is meant to hold of the other, too, since that has the same stores; the checkers of evidence say whether it
/// does.
#[derive(Debug, Drop)]
pub struct Renumbering {
    numbers: Vec<usize>,
}

impl Renumbering {
    /// The numbers that the events of a part have in the whole. OutOfMemory where an allocation was refused.
    pub fn new(alloc: Global, part: &Log, whole: &Log) -> Result<Renumbering, OutOfMemory> {
        let names = names_of(alloc, whole)?;
        let left = names_of(alloc, part)?;
        Ok(Renumbering {
            numbers: numbers_among(alloc, &names, &left)?,
        })
    }

    /// The number of an event, by its number in the part. 0, the first value, stays 0.
    pub fn number(&self, event: usize) -> usize {
        match event.checked_sub(1) {
            None => 0,
            Some(place) => self.numbers.get(place).copied().unwrap_or(0),
        }
    }

    /// A line of a refutation, with the numbers of its events.
    pub fn line(&self, line: ValueRefutationLine) -> ValueRefutationLine {
        match line {
            ValueRefutationLine::Step(step) => ValueRefutationLine::Step(self.step(step)),
            ValueRefutationLine::ReadCase { load, source } => ValueRefutationLine::ReadCase {
                load: self.number(load),
                source: self.number(source),
            },
            ValueRefutationLine::BeforeCase { first, second } => ValueRefutationLine::BeforeCase {
                first: self.number(first),
                second: self.number(second),
            },
            ValueRefutationLine::Else => ValueRefutationLine::Else,
            ValueRefutationLine::End(end) => ValueRefutationLine::End(self.end(end)),
        }
    }

    /// A step, with the numbers of its events.
    fn step(&self, step: ValueStep) -> ValueStep {
        match step {
            ValueStep::Read { load, source } => ValueStep::Read {
                load: self.number(load),
                source: self.number(source),
            },
            ValueStep::In { from, load } => ValueStep::In {
                from: self.number(from),
                load: self.number(load),
            },
            ValueStep::Out { load, to } => ValueStep::Out {
                load: self.number(load),
                to: self.number(to),
            },
            ValueStep::Over { from, to, load } => ValueStep::Over {
                from: self.number(from),
                to: self.number(to),
                load: self.number(load),
            },
            ValueStep::SwapAfter { swap, to } => ValueStep::SwapAfter {
                swap: self.number(swap),
                to: self.number(to),
            },
            ValueStep::SwapBefore { from, swap } => ValueStep::SwapBefore {
                from: self.number(from),
                swap: self.number(swap),
            },
        }
    }

    /// An end, with the number of its event.
    fn end(&self, end: ValueEnd) -> ValueEnd {
        match end {
            ValueEnd::NoSource(load) => ValueEnd::NoSource(self.number(load)),
            ValueEnd::Cycle(event) => ValueEnd::Cycle(self.number(event)),
        }
    }
}

/// Evidence of a part of a log, with the numbers that its events have in the whole. OutOfMemory where an allocation was refused.
pub(crate) fn renumber(
    alloc: Global,
    evidence: &ValueEvidence,
    part: &Log,
    whole: &Log,
) -> Result<ValueEvidence, OutOfMemory> {
    let renumbering = Renumbering::new(alloc, part, whole)?;
    let mut steps = Vec::with_capacity(alloc, evidence.steps.len())?;
    for step in &evidence.steps {
        steps.push(renumbering.step(*step))?;
    }
    Ok(ValueEvidence {
        steps,
        end: renumbering.end(evidence.end),
    })
}

/// The numbers of the names that are left among all names, from 1; both stand in one order.
fn numbers_among(
    alloc: Global,
    names: &[EventName],
    left: &[EventName],
) -> Result<Vec<usize>, OutOfMemory> {
    let mut numbers = Vec::with_capacity(alloc, left.len())?;
    for (k, name) in names.iter().enumerate() {
        if left.get(numbers.len()) == Some(name) {
            numbers.push(k + 1)?;
        }
    }
    Ok(numbers)
}
