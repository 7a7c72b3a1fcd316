//! Violations by the values of a log, with the lines that show them.
ghost use Rattle.std.specs.Prelude.{◌≡◌, IfOk, IfSome};
ghost use Rattle.std.specs.List.{All};
ghost use Rattle.log_selections.specs.Shown.{IsLineOf};
ghost use Rattle.log_reports.specs.ValueViolations.{AreSourcesOf, AreShownOf};

use log_search::{ShownLoad, ValueViolation};
use log_selections::{KnownLog, Shown};
use log_text::LogOperation;
use std::alloc::Global;
use tso_ops::OutOfMemory;
use value_evidence::ValueEvidence;

/// Evidence that a log has no order of its memory model, by its values, and lines of the log that show why it holds.
#[derive(Drop)]
pub struct ShownEvidence {
    /// The evidence. It is of the log whose idle swaps are read as loads.
    pub evidence: ValueEvidence,
    /// The lines of events each of which comes before the next, and the last before the first; none where a load can have read
    /// nothing.
    pub cycle: Vec<Shown>,
    /// Loads of which the source was found by elimination, or the load that can have read nothing.
    pub loads: Vec<ShownSources>,
}

/// What a load read, when several stores may have written it.
#[derive(Drop)]
pub struct ShownSources {
    /// The load.
    pub load: Shown,
    /// What it read.
    pub value: u64,
    /// How many stores of this value there are to its address.
    pub stores: usize,
    /// How many of these another store follows that the load sees.
    pub overwritten: usize,
    /// How many of the others come after the load.
    pub later: usize,
    /// How many of the others another swap read.
    pub taken: usize,
    /// Which of them it read.
    pub source: ShownSource,
    /// Of each processor that has some the last one that is overwritten.
    pub before: Vec<Shown>,
    /// Of each processor that has some the first one that comes after the load.
    pub after: Vec<Shown>,
}

/// What a load read.
#[derive(Clone, Copy, Debug, PartialEq, Eq)]
pub enum ShownSource {
    /// It can have read nothing.
    Nothing,
    /// The first value.
    First,
    /// The store of this line.
    Line(usize),
}

/// The violation of a log with this evidence, of which the search found this in what is left of the log, whose idle swaps are read
/// as loads. OutOfMemory where an allocation was refused.
pub(crate) fn show_violation(
    alloc: Global,
    known: &KnownLog,
    left: &KnownLog,
    violation: &ValueViolation,
    evidence: ValueEvidence,
) -> Result<ShownEvidence, OutOfMemory>
    ensures evidence { IfOk result (λ shown. shown.evidence ≡ evidence) }
    ensures lines { IfOk result (AreShownOf known.now) }
{
    let cycle = show_cycle(alloc, known, left, &violation.cycle)?;
    let loads = show_loads(alloc, known, left, &violation.loads)?;
    Ok(ShownEvidence {
        evidence,
        cycle,
        loads,
    })
}

/// The lines of the events of a cycle. The load and the store of a swap, one after the other, have one line.
fn show_cycle(
    alloc: Global,
    known: &KnownLog,
    left: &KnownLog,
    numbers: &[usize],
) -> Result<Vec<Shown>, OutOfMemory>
    ensures { IfOk result (λ shown. All (IsLineOf known.now.lists) shown.items) }
{
    let mut shown = Vec::new(alloc);
    let mut last = 0;
    for number in numbers {
        if let Some(event) = show_event(known, left, *number)
            && event.logged.line != last
        {
            last = event.logged.line;
            shown.push(event)?;
        }
    }
    Ok(shown)
}

/// The lines of events.
fn show_events(
    alloc: Global,
    known: &KnownLog,
    left: &KnownLog,
    numbers: &[usize],
) -> Result<Vec<Shown>, OutOfMemory>
    ensures { IfOk result (λ shown. All (IsLineOf known.now.lists) shown.items) }
{
    let mut shown = Vec::new(alloc);
    for number in numbers {
        if let Some(event) = show_event(known, left, *number) {
            shown.push(event)?;
        }
    }
    Ok(shown)
}

/// The line of the log that has the event of this number in what is left of it.
fn show_event(known: &KnownLog, left: &KnownLog, number: usize) -> Option<Shown>
    ensures { IfSome result (IsLineOf known.now.lists) }
{
    let event = left.operation_of(number)?;
    known.operation_at(event.processor, event.logged.line)
}

/// What is shown of loads.
fn show_loads(
    alloc: Global,
    known: &KnownLog,
    left: &KnownLog,
    loads: &[ShownLoad],
) -> Result<Vec<ShownSources>, OutOfMemory>
    ensures { IfOk result (λ shown. All (AreSourcesOf known.now) shown.items) }
{
    let mut shown = Vec::new(alloc);
    for load in loads {
        if let Some(sources) = show_load(alloc, known, left, load)? {
            shown.push(sources)?;
        }
    }
    Ok(shown)
}

/// What is shown of a load: None where it is no load of the log.
fn show_load(
    alloc: Global,
    known: &KnownLog,
    left: &KnownLog,
    load: &ShownLoad,
) -> Result<Option<ShownSources>, OutOfMemory>
    ensures { IfOk result (λ found. IfSome found (AreSourcesOf known.now)) }
{
    let Some(shown) = show_event(known, left, load.load) else {
        return Ok(None);
    };
    let (LogOperation::Ld { r, .. } | LogOperation::Sw { r, .. }) = shown.logged.operation else {
        return Ok(None);
    };
    Ok(Some(ShownSources {
        load: shown,
        value: r,
        stores: load.stores,
        overwritten: load.overwritten,
        later: load.later,
        taken: load.taken,
        source: show_source(known, left, load.source),
        before: show_events(alloc, known, left, &load.before)?,
        after: show_events(alloc, known, left, &load.after)?,
    }))
}

/// What the source of this number is, 0 for the first value.
fn show_source(known: &KnownLog, left: &KnownLog, source: Option<usize>) -> ShownSource {
    match source {
        None => ShownSource::Nothing,
        Some(0) => ShownSource::First,
        Some(number) => match show_event(known, left, number) {
            Some(event) => ShownSource::Line(event.logged.line),
            None => ShownSource::Nothing,
        },
    }
}
