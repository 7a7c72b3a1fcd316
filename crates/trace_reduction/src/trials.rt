//! Trials, which the effort of a search counts.
ghost use Rattle.std.specs.Prelude.{◌≡◌, IfOk, true};
ghost use Rattle.trace_reports.specs.Violations.{IsViolation};

use log_search::Effort;
use std::alloc::Global;
use std::sync::Wait;
use std::thread::Threads;
use text_streams::Fault;
use trace_judging::try_trace;
use tso_ops::{OutOfMemory, Trace};

/// Whether a trace is a violation, found in the caller's thread; the effort counts the work. OutOfMemory where an allocation was
/// refused.
///
/// Where the system refuses what rounds need beside memory, the answer is that it is none.
pub fn accuses_trace<H: Threads + Wait>(
    rt: &H,
    alloc: Global,
    trace: &Trace,
    effort: &mut Effort,
) -> Result<bool, OutOfMemory>
    ensures { IfOk result (λ found. found ≡ true → IsViolation trace.now) }
{
    match try_trace(rt, alloc, trace, 1) {
        Ok(trial) => {
            effort.count(trace.events(), trial.rounds as usize, trial.rows as usize);
            Ok(trial.is_violation)
        }
        Err(Fault::OutOfMemory) => Err(OutOfMemory),
        // One worker starts no thread.
        Err(_) => Ok(false),
    }
}
