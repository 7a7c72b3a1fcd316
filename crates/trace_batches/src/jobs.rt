//! Trace texts of a batch, judged side by side.
ghost use Rattle.std.specs.Prelude.{◌≡◌, ◌≤◌, IfOk, map};
ghost use Rattle.tso_ops.specs.Values.{rows};
ghost use Rattle.trace_batches.specs.Batches.{asked};
ghost use Rattle.trace_batches.specs.Internal.Progress.{AreJudged, IsJobOf};

use crate::batches::BatchOptions;
use crate::judgments::{Judgment, judge_trace_text};
use crate::questions::{BatchQuestion, asked};
use std::alloc::Global;
use std::sync::Wait;
use std::thread;
use std::thread::Threads;
use text_streams::Fault;
use tso_ops::OutOfMemory;

/// A trace text of a stream, and what is said of it.
#[derive(Drop)]
pub(crate) struct Job {
    /// The first bytes of the trace text.
    pub(crate) piece: Vec<u8>,
    /// What is said of it, or why nothing is: NoThread as long as the trace text wasn't judged.
    pub(crate) outcome: Result<Judgment, Fault>,
}

impl Job {
    fn new(piece: Vec<u8>) -> Job
        ensures { result ≡ record { piece = piece; outcome = Err Fault.NoThread } }
    {
        Job {
            piece,
            outcome: Err(Fault::NoThread),
        }
    }

    /// Judges the trace text with one worker.
    fn judge<H: Threads + Wait>(&mut self, rt: &H, alloc: Global, question: BatchQuestion)
        ensures { IsJobOf question self.old.piece.items self.new }
    {
        self.outcome = judge_trace_text(rt, alloc, &self.piece, question);
    }
}

/// Judges these trace texts by as many threads at most as the options say, each trace text with one worker: a job for each, in
/// order. OutOfMemory where an allocation for the jobs was refused.
pub(crate) fn judge_all<H: Threads + Wait + Sync>(
    rt: &H,
    alloc: Global,
    pieces: Vec<Vec<u8>>,
    options: BatchOptions,
) -> Result<Vec<Job>, OutOfMemory>
    requires { 1 ≤ options.workers }
    ensures { IfOk result (λ jobs. AreJudged (asked options.printing) (rows pieces.items) jobs.items) }
{
    let mut jobs = jobs_of(alloc, pieces)?;
    judge_each(rt, alloc, &mut jobs, options);
    Ok(jobs)
}

/// A job for each trace text, in order.
fn jobs_of(alloc: Global, pieces: Vec<Vec<u8>>) -> Result<Vec<Job>, OutOfMemory>
    ensures { IfOk result (λ jobs. jobs.items ≡ map (λ piece. record { piece = piece; outcome = Err Fault.NoThread }) pieces.items) }
{
    pieces
        .into_iter()
        .map(|piece| Job::new(piece))
        .collect(alloc)
}

/// Does the jobs.
fn judge_each<H: Threads + Wait + Sync>(
    rt: &H,
    alloc: Global,
    jobs: &mut [Job],
    options: BatchOptions,
)
    requires { 1 ≤ options.workers }
    ensures { AreJudged (asked options.printing) (map (λ job. job.piece.items) jobs.old) jobs.new }
{
    let question = asked(options.printing);
    let judge = |_: usize, job: &mut Job|
        ensures { IsJobOf question job.entry.now.piece.items job.exit.now }
    { job.judge(rt, alloc, question) };
    thread::for_each_mut(rt, jobs, options.workers, &judge);
}
