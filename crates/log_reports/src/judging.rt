//! The judge of what a search proposes.

use log_search::{Effort, Judge};
use log_selections::{Kept, KnownLog};
use std::alloc::Global;
use std::sync::Wait;
use std::thread::Threads;
use trace_reduction::accuses_trace;
use tso_ops::OutOfMemory;

/// Judges operations of a log as a trace, in the caller's thread, until its effort is spent: they are accused where the trace is a violation.
#[derive(Drop)]
pub(crate) struct TraceJudge<'a, H> {
    rt: &'a H,
    alloc: Global,
    known: &'a KnownLog,
    effort: Effort,
}

impl<'a, H: Threads + Wait> TraceJudge<'a, H> {
    /// The judge of these operations, and of what is left of them.
    pub(crate) fn new(
        rt: &'a H,
        alloc: Global,
        known: &'a KnownLog,
        kept: &[Vec<Kept>],
    ) -> TraceJudge<'a, H> {
        let mut events: usize = 0;
        for list in kept {
            events = events.saturating_add(list.len());
        }
        TraceJudge {
            rt,
            alloc,
            known,
            effort: Effort::new(events, 0),
        }
    }
}

impl<H: Threads + Wait> Judge for TraceJudge<'_, H> {
    fn accuses(&mut self, kept: &[Vec<Kept>]) -> Result<bool, OutOfMemory> {
        if self.is_done() {
            return Ok(false);
        }
        match self.known.trace_of(self.alloc, kept)? {
            Some(trace) => accuses_trace(self.rt, self.alloc, &trace, &mut self.effort),
            None => Ok(false),
        }
    }

    fn is_done(&self) -> bool {
        self.effort.is_spent()
    }
}
