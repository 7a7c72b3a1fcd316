//! How many trace texts were judged, and what is said of them.
ghost use Rattle.std.specs.Prelude.{◌≡◌, ◌+◌, ◌∷◌, ◌++◌, [], List, IfOk, IfErr, OnOk};
ghost use Rattle.trace_batches.specs.BatchLines.{are_too_few};
ghost use Rattle.trace_batches.specs.Batches.{Counts, batch_verdict, count_judged, kept_with};
ghost use Rattle.trace_batches.specs.declared.judgments.Judgment.{Judgment};
ghost use Rattle.text_streams.specs.declared.faults.Fault.{Fault};

use crate::judgments::Judgment;
use text_streams::Fault;
use trace_reports::Answer;
/// How many traces were judged, and of how many of them each thing is said.
#[derive(Clone, Copy, Debug)]
pub(crate) struct Tally {
    pub(crate) traces: u64,
    pub(crate) consistent: u64,
    pub(crate) violations: u64,
    pub(crate) undecided: u64,
    pub(crate) refused: u64,
}

impl Tally {
    /// None yet.
    pub(crate) fn new() -> Tally
        ensures { Counts result [] }
    {
        Tally {
            traces: 0,
            consistent: 0,
            violations: 0,
            undecided: 0,
            refused: 0,
        }
    }

    /// Counts what is said of a trace. Read where there were 2^64 - 1 before.
    pub(crate) fn count(&mut self, judgment: &Judgment) -> Result<(), Fault>
        ensures counted { OnOk result ((judgments : List Judgment) → Counts self.old judgments → Counts self.new (judgments ++ judgment.now ∷ [])) }
        ensures traces { OnOk result (self.new.traces ≡ self.old.traces + 1) }
        ensures violations { OnOk result (self.new.violations ≡ kept_with self.old.violations judgment.now) }
        ensures fault { IfErr result (λ fault. fault ≡ Fault.Read) }
    {
        self.traces = sum(self.traces, 1)?;
        match judgment {
            Judgment::NoViolation => {}
            Judgment::Consistent => self.consistent = sum(self.consistent, 1)?,
            Judgment::Violation(_) => self.violations = sum(self.violations, 1)?,
            Judgment::Undecided(_) => self.undecided = sum(self.undecided, 1)?,
            Judgment::Refused(_) => self.refused = sum(self.refused, 1)?,
        }
        Ok(())
    }

    /// Adds the numbers of others. Read where a sum is 2^64 or more.
    pub(crate) fn add(&mut self, more: &Tally) -> Result<(), Fault>
        ensures added { OnOk result ((judgments others : List Judgment) → Counts self.old judgments → Counts more.now others →
            Counts self.new (judgments ++ others)) }
        ensures fault { IfErr result (λ fault. fault ≡ Fault.Read) }
    {
        self.traces = sum(self.traces, more.traces)?;
        self.consistent = sum(self.consistent, more.consistent)?;
        self.violations = sum(self.violations, more.violations)?;
        self.undecided = sum(self.undecided, more.undecided)?;
        self.refused = sum(self.refused, more.refused)?;
        Ok(())
    }

    /// How many were judged: those that are neither refused nor undecided.
    pub(crate) fn judged(&self) -> u64
        ensures { (judgments : List Judgment) → Counts self.now judgments → result ≡ count_judged judgments }
    {
        self.traces
            .saturating_sub(self.undecided)
            .saturating_sub(self.refused)
    }

    /// Violation where a judgment says so, else Refused or Undecided where one says that, else Undecided where fewer were
    /// judged than have to be.
    pub(crate) fn verdict(&self, required: Option<u64>) -> Answer
        ensures { (judgments : List Judgment) → Counts self.now judgments → result ≡ batch_verdict required judgments }
    {
        if self.violations > 0 {
            Answer::Violation
        } else if self.refused > 0 {
            Answer::Refused
        } else if self.undecided > 0 {
            Answer::Undecided
        } else if are_too_few(required, self.judged()) {
            Answer::Undecided
        } else {
            Answer::Clear
        }
    }
}

/// Whether so many judged traces are fewer than have to be.
pub(crate) fn are_too_few(required: Option<u64>, count: u64) -> bool
    ensures { result ≡ are_too_few required count }
{
    count < required.unwrap_or(0)
}

/// The sum of numbers, or Read where 64 bits don't hold it.
pub(crate) fn sum(count: u64, more: u64) -> Result<u64, Fault>
    ensures sum { IfOk result (λ all. all ≡ count + more) }
    ensures fault { IfErr result (λ fault. fault ≡ Fault.Read) }
{
    match count.checked_add(more) {
        Some(all) => Ok(all),
        None => Err(Fault::Read),
    }
}
