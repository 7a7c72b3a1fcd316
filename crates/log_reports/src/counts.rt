//! How many operations and loads a log has.
ghost use Rattle.std.specs.Prelude.{◌≡◌, ◌≤◌, ◌+◌, IfOk, length, map};
ghost use Rattle.log_reports.specs.LogCounts.{counts_of, is_nothing_judged, is_too_unknown, loads_of, looked_at, operations_in};
ghost use Rattle.log_text.specs.LogValues.{log_value};
ghost use Rattle.log_selections.specs.Unwritten.{read_by};

use log_text::{Log, LogOperation, LoggedOperation};
use tso_ops::OutOfMemory;

/// What a log has, and of how much nothing is known.
#[derive(Clone, Copy, Debug, PartialEq, Eq)]
pub struct LogCounts {
    /// The number of its processors.
    pub processors: usize,
    /// The number of its operations.
    pub operations: usize,
    /// The number of its loads, swaps among them.
    pub loads: usize,
    /// The number of loads with a source that the values don't tell.
    pub unknown: usize,
    /// The number of loads that say no more than others, so that the search by values passed over them.
    pub repeated: usize,
    /// The number of operations of its text that lines `un` leave out.
    pub left_out: usize,
}

impl LogCounts {
    /// Counts what a log has, of the loads of which so many are unknown, and none is passed over. OutOfMemory above 64 bits: no memory
    /// holds so many.
    pub(crate) fn new(log: &Log, unknown: usize) -> Result<LogCounts, OutOfMemory>
        ensures { IfOk result (λ counts. counts ≡ counts_of (log_value log.now) unknown 0) }
    {
        let (operations, loads) = count_operations(log)?;
        Ok(LogCounts {
            processors: log.lists.len(),
            operations,
            loads,
            unknown,
            repeated: 0,
            left_out: log.left_out,
        })
    }

    /// How many loads were looked at.
    fn looked_at(self) -> usize
        ensures { result ≡ looked_at self }
    {
        self.loads.saturating_sub(self.repeated)
    }

    /// Whether there is no load that can be judged.
    #[tactic(auto, unfolding(crate::specs::LogCounts::is_nothing_judged))]
    pub(crate) fn is_nothing_judged(self) -> bool
        ensures { result ≡ is_nothing_judged self }
    {
        self.looked_at() <= self.unknown
    }

    /// Whether of a hundred loads that were looked at more are unknown than so many. OutOfMemory above 64 bits: no memory holds so many.
    #[tactic(auto, unfolding(crate::specs::LogCounts::is_too_unknown))]
    pub(crate) fn is_too_unknown(self, percent: usize) -> Result<bool, OutOfMemory>
        ensures { IfOk result (λ is. is ≡ is_too_unknown percent self) }
    {
        let allowed = percent.checked_mul(self.looked_at()).ok_or(OutOfMemory)?;
        let found = self.unknown.checked_mul(100).ok_or(OutOfMemory)?;
        Ok(found > allowed)
    }
}

/// How many operations a log has, and how many of them load, swaps among them. OutOfMemory above 64 bits: no memory holds so
/// many.
pub(crate) fn count_operations(log: &Log) -> Result<(usize, usize), OutOfMemory>
    ensures operations { IfOk result (λ counts. counts.0 ≡ length (operations_in (log_value log.now))) }
    ensures loads { IfOk result (λ counts. counts.1 ≡ loads_of (operations_in (log_value log.now))) }
{
    let mut operations: usize = 0;
    let mut loads: usize = 0;
    for list in &log.lists {
        operations = add(operations, list.len())?;
        loads = add(loads, count_loads(list))?;
    }
    Ok((operations, loads))
}

/// The sum of two numbers; OutOfMemory above 64 bits.
fn add(count: usize, more: usize) -> Result<usize, OutOfMemory>
    ensures { IfOk result (λ sum. sum ≡ count + more) }
{
    count.checked_add(more).ok_or(OutOfMemory)
}

/// How many of a processor's operations load.
fn count_loads(list: &[LoggedOperation]) -> usize
    ensures { result ≡ loads_of (map (λ x. x.operation) list.now) }
{
    let mut loads: usize = 0;
    for logged in list {
        loads += loads_by(logged.operation);
    }
    loads
}

/// How many loads an operation gives: one at most.
fn loads_by(operation: LogOperation) -> usize
    ensures count { result ≡ length (read_by operation) }
    ensures most { result ≤ 1 }
{
    match operation {
        LogOperation::Ld { .. } | LogOperation::Sw { .. } => 1,
        LogOperation::St { .. } | LogOperation::Mb | LogOperation::Sb => 0,
    }
}
