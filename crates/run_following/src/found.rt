//! What is found of a run.
ghost use Rattle.std.specs.Prelude.{◌≡◌, IfOk};
ghost use Rattle.run_following.specs.Accounts.{Account, Follows};
ghost use Rattle.run_following.specs.Found.{IsFoundIn, run_answer};

use crate::counts::RunCounts;
use crate::facts::ToldRefusal;
use crate::followers::Follower;
use std::alloc::Global;
use std::mem;
use trace_reports::Answer;
use tso_ops::OutOfMemory;

/// What is found of a run.
#[derive(Debug, Drop)]
pub struct RunFound {
    /// How many lines it has of each kind.
    pub counts: RunCounts,
    /// How many stores never reached memory.
    pub waiting: usize,
    /// Whether a value was compared with what the machine has.
    pub is_compared: bool,
    /// How many refusals there are.
    pub refusals: u64,
    /// The first of them.
    pub told: Vec<ToldRefusal>,
}

impl RunFound {
    /// What it answers: a violation where a line is no step, and nothing where no value was compared.
    pub(crate) fn answer(&self) -> Answer
        ensures { result ≡ run_answer self.now }
    {
        if self.refusals > 0 {
            Answer::Violation
        } else if self.is_compared {
            Answer::Clear
        } else {
            Answer::Undecided
        }
    }
}

impl Follower {
    /// What is found of the lines so far; it takes what is told of refusals. OutOfMemory where there are too many stores to count.
    pub(crate) fn found(&mut self, alloc: Global) -> Result<RunFound, OutOfMemory>
        ensures { IfOk result (λ found. (account : Account) → Follows self.old account → IsFoundIn self.old.noted.most account found) }
    {
        let waiting = self.machine.waiting()?;
        Ok(RunFound {
            counts: self.tally.counts,
            waiting,
            is_compared: self.tally.is_compared,
            refusals: self.noted.total,
            told: mem::replace(&mut self.noted.first, Vec::new(alloc)),
        })
    }
}
