//! Selections of a log with the lines that show them.
ghost use Rattle.std.specs.Prelude.{◌≡◌, IfOk, IfSome, true};
ghost use Rattle.tso_ops.specs.Limits.{IsTrace};
ghost use Rattle.log_text.specs.LogValues.{log_value};
ghost use Rattle.log_selections.specs.Shown.{AreLinesOf, IsSelected, log_of_shown};

use crate::known::KnownLog;
use crate::shown::{Kept, Shown, count_lists, show_kept};
use log_text::{Log, LoggedOperation};
use std::alloc::Global;
use tso_ops::{OutOfMemory, Part, Trace};
use tso_text::print_trace;

/// Operations of a log, as they stand in it, and a trace that is a selection of the log and of these operations alone.
#[derive(Debug, Drop)]
pub struct Selected {
    /// The operations, in the order of their lines.
    pub shown: Vec<Shown>,
    /// The trace.
    pub trace: Trace,
}

impl KnownLog {
    /// These operations of each processor, as they stand in the log, in the order of their lines: None where they are no
    /// operations of the log. OutOfMemory where an allocation was refused.
    pub fn show(&self, alloc: Global, kept: &[Vec<Kept>]) -> Result<Option<Vec<Shown>>, OutOfMemory>
        ensures { IfOk result (λ found. IfSome found (λ shown. AreLinesOf self.now.lists shown.items)) }
    {
        show_kept(alloc, &self.log().lists, kept)
    }

    /// These operations of each processor as a selection of the log: None where they are no operations of the log, the sources
    /// of their loads aren't among them, or they are past the limits of traces. Processors of which nothing is kept are left
    /// out of the trace. OutOfMemory where an allocation was refused.
    pub fn select(&self, alloc: Global, kept: &[Vec<Kept>]) -> Result<Option<Selected>, OutOfMemory>
        ensures { IfOk result (λ found. IfSome found (λ selected. IsSelected self.now selected.shown.items selected.trace)) }
    {
        let Some(trace) = self.trace_of(alloc, kept)? else {
            return Ok(None);
        };
        let Some(shown) = self.show(alloc, kept)? else {
            return Ok(None);
        };
        let alone = KnownLog::new(alloc, self.log_of_shown(alloc, &shown)?)?;
        match alone.trace_of(alloc, &keep_all(alloc, alone.log())?)? {
            Some(other) if is_same(alloc, &trace, &other)? => Ok(Some(Selected { shown, trace })),
            _ => Ok(None),
        }
    }

    /// The log of what is shown. OutOfMemory where an allocation was refused.
    fn log_of_shown(&self, alloc: Global, shown: &[Shown]) -> Result<Log, OutOfMemory>
        ensures { IfOk result (λ log. log_value log ≡ log_of_shown self.now shown.now) }
    {
        let log = self.log();
        Ok(Log {
            order: log.order,
            first: Vec::from_slice(alloc, &log.first)?,
            lists: count_lists(alloc, shown, log.lists.len())?,
            left_out: 0,
        })
    }
}

/// All operations of a log.
fn keep_all(alloc: Global, log: &Log) -> Result<Vec<Vec<Kept>>, OutOfMemory> {
    let mut kept = Vec::new(alloc);
    for list in &log.lists {
        kept.push(keep_list(alloc, list)?)?;
    }
    Ok(kept)
}

/// All of so many operations of a processor.
fn keep_list(alloc: Global, list: &[LoggedOperation]) -> Result<Vec<Kept>, OutOfMemory> {
    let mut kept = Vec::new(alloc);
    for index in 0..list.len() {
        kept.push(Kept {
            index,
            part: Part::Whole,
        })?;
    }
    Ok(kept)
}

/// Whether two traces are the same, by their texts. Each keeps the limits of traces.
fn is_same(alloc: Global, trace: &Trace, other: &Trace) -> Result<bool, OutOfMemory>
    ensures { IfOk result (λ same. same ≡ true → IsTrace trace.now × (trace.now ≡ other.now)) }
{
    Ok(print_trace(alloc, trace)? == print_trace(alloc, other)?)
}
