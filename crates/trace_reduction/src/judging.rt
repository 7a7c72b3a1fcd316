//! The judge of a search for a small trace, which judges as little as it can.

use crate::logs::keep_all;
use crate::losses::{Loss, Losses, without};
use crate::parts::Parts;
use crate::trials::accuses_trace;
use log_search::{Effort, Judge};
use log_selections::{Kept, KnownLog};
use std::alloc::Global;
use std::sync::Wait;
use std::thread::Threads;
use tso_ops::{OutOfMemory, Trace};

/// Judges fewer and fewer operations of a trace's log as traces, on one worker, until its effort is spent.
///
/// What isn't accused isn't accused with still less. So a load, a store or a barrier without which what was accused last no longer
/// is will be needed for good; and before several go, one of them is left out alone, which often shows that all are needed of
/// which it is a part.
#[derive(Drop)]
pub(crate) struct SparingJudge<'a, H> {
    rt: &'a H,
    alloc: Global,
    known: &'a KnownLog,
    effort: Effort,
    accused: Vec<Vec<Kept>>,
    needed: Parts,
}

impl<'a, H: Threads + Wait> SparingJudge<'a, H> {
    /// The judge of a trace that is a violation, and of its log. OutOfMemory where an allocation was refused.
    pub(crate) fn new(
        rt: &'a H,
        alloc: Global,
        trace: &Trace,
        known: &'a KnownLog,
        effort: Effort,
    ) -> Result<SparingJudge<'a, H>, OutOfMemory> {
        Ok(SparingJudge {
            rt,
            alloc,
            known,
            effort,
            accused: keep_all(alloc, known.log())?,
            needed: Parts::none(alloc, trace)?,
        })
    }

    /// What is left of the effort.
    pub(crate) fn effort(&self) -> Effort {
        self.effort
    }

    /// Judges these operations, and remembers them where they are accused.
    pub(crate) fn judge_all(&mut self, kept: &[Vec<Kept>]) -> Result<bool, OutOfMemory> {
        let is_accused = self.judge(kept)?;
        if is_accused {
            self.accused = copy_of(self.alloc, kept)?;
        }
        Ok(is_accused)
    }

    /// Judges these operations. They aren't accused where they are no trace.
    fn judge(&mut self, kept: &[Vec<Kept>]) -> Result<bool, OutOfMemory> {
        if self.effort.is_spent() {
            return Ok(false);
        }
        let Some(trace) = self.known.trace_of(self.alloc, kept)? else {
            return Ok(false);
        };
        accuses_trace(self.rt, self.alloc, &trace, &mut self.effort)
    }

    /// Whether what was accused last is no longer without this.
    fn needs(&mut self, loss: Loss) -> Result<bool, OutOfMemory> {
        let fewer = without(self.alloc, &self.accused, loss)?;
        let is_needed = !self.judge(&fewer)?;
        if is_needed {
            self.needed
                .mark(loss.processor, loss.kept.index, loss.kept.part);
        }
        Ok(is_needed)
    }
}

impl<H: Threads + Wait> Judge for SparingJudge<'_, H> {
    fn accuses(&mut self, kept: &[Vec<Kept>]) -> Result<bool, OutOfMemory> {
        if self.is_done() || !self.needed.are_in(kept) {
            return Ok(false);
        }
        let losses = Losses::new(self.known, &self.accused, kept);
        let Some(loss) = losses.single() else {
            return Ok(true);
        };
        if self.needs(loss)? {
            return Ok(false);
        }
        if losses.is_one() {
            self.accused = copy_of(self.alloc, kept)?;
            return Ok(true);
        }
        self.judge_all(kept)
    }

    fn is_done(&self) -> bool {
        self.effort.is_spent()
    }
}

/// The same operations once more.
fn copy_of(alloc: Global, kept: &[Vec<Kept>]) -> Result<Vec<Vec<Kept>>, OutOfMemory> {
    let mut copy = Vec::new(alloc);
    for list in kept {
        copy.push(Vec::from_slice(alloc, list)?)?;
    }
    Ok(copy)
}
