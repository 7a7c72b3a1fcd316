//! From the text of a log to the decision on it.
ghost use Rattle.std.specs.Prelude.{◌≡◌, ◌≢◌, ◌⊎◌, List, ℕ, string_bytes, IfErr, IfOk, IfSome};
ghost use Rattle.std.specs.Io.KnownBytes.{Consumes};
ghost use Rattle.text_streams.specs.WrittenTexts.{LeavesAtFault, WritesWhole};
ghost use Rattle.text_streams.specs.declared.faults.Fault.{Fault};
ghost use Rattle.log_text.specs.LogTexts.{SpellsLog};
ghost use Rattle.log_text.specs.LogValues.{NumberedLog, log_operations, log_value};
ghost use Rattle.log_decisions.specs.LogDecisions.{IsDecisionOfLog, IsLogDecisionOfReader, SaysOfLog};

use crate::decisions::decide_on;
use crate::renderings::{answer_of_log, render_log_decision};
use log_selections::KnownLog;
use log_text::{Log, read_log};
use log_thinning::{read_idle_swaps, thin};
use std::alloc::Global;
use std::io::{Read, Write};
use text_streams::{Fault, read_all, write_text};
use trace_reports::{Answer, AsReport, Report, render_refused};
use tso_ops::OutOfMemory;

/// How it is decided on a log.
#[derive(Clone, Copy, Debug, PartialEq, Eq)]
pub struct LogQuestion {
    /// How many cases are supposed, at most.
    pub effort: usize,
    /// Whether a text without the line `end` is refused.
    pub needs_end: bool,
}

/// Decides on the log that a reader has, and writes what was decided, with its evidence.
///
/// Under TSO a swap that stores what it read counts as a barrier and a load. Evidence names events by lines of the log. A text that is
/// no log is Refused, by its line. The log is read to its end. Faults: OutOfMemory where an allocation was refused, or where a log with a
/// refutation has 2^32 loads and stores or more; Read where the reader failed, or didn't show its end within 2,097,152 calls of `read`; with
/// each nothing was written. Write where the writer failed, took no byte or was interrupted more than 1,048,576 times: then what was
/// written is a prefix of the text.
pub fn decide_log<R: Read, W: Write>(
    alloc: Global,
    question: LogQuestion,
    reader: &mut R,
    writer: &mut W,
) -> Result<Answer, Fault>
    ensures decided { IfOk result (WritesWhole (IsLogDecisionOfReader question (R.remaining reader.old)) (W.contents writer.old) (W.contents writer.new)) }
    ensures says { IfOk result (λ answer. IfSome (R.remaining reader.old) (λ all. (log : NumberedLog) → SpellsLog all log → SaysOfLog (log_operations log) answer)) }
    ensures taken { IfOk result (λ _. IfSome (R.remaining reader.old) (λ all. Consumes (R.remaining reader.old) (R.remaining reader.new) all)) }
    ensures fault { IfErr result (LeavesAtFault (IsLogDecisionOfReader question (R.remaining reader.old)) (W.contents writer.old) (W.contents writer.new)) }
    ensures no_thread { IfErr result (λ fault. fault ≢ Fault.NoThread) }
{
    let report = report_decision(alloc, question, reader)?;
    write_text(writer, report.text.as_bytes())?;
    Ok(report.verdict)
}

/// The decision on the log that a reader has, as a text with its answer.
fn report_decision<R: Read>(
    alloc: Global,
    question: LogQuestion,
    reader: &mut R,
) -> Result<Report<Answer>, Fault>
    ensures report { IfOk result (λ report. IsLogDecisionOfReader question (R.remaining reader.old) (string_bytes report.text) report.verdict) }
    ensures taken { IfOk result (λ _. IfSome (R.remaining reader.old) (λ all. Consumes (R.remaining reader.old) (R.remaining reader.new) all)) }
    ensures fault { IfErr result (λ fault. (fault ≡ Fault.OutOfMemory) ⊎ (fault ≡ Fault.Read)) }
{
    let text = read_all(alloc, reader, usize::MAX)?;
    match read_log(alloc, &text, question.needs_end) {
        Ok(log) => Ok(report_on_log(alloc, &log, question.effort)?),
        Err(fault) => Ok(render_refused(alloc, &text, fault, &AsReport, Answer::Refused)?),
    }
}

/// The decision on a log by at most so many cases, as a text with its answer. OutOfMemory where an allocation was refused, or where a
/// log with a refutation has 2^32 loads and stores or more.
fn report_on_log(alloc: Global, log: &Log, effort: usize) -> Result<Report<Answer>, OutOfMemory>
    ensures { IfOk result (λ report. IsDecisionOfLog effort (log_value log.now) (string_bytes report.text) report.verdict) }
{
    let read = read_idle_swaps(alloc, log)?;
    let thinned = thin(alloc, read_idle_swaps(alloc, log)?)?;
    let left = KnownLog::new(alloc, thinned.log)?;
    let decision = decide_on(alloc, &read, &left, effort)?;
    Ok(Report {
        verdict: answer_of_log(&decision),
        text: render_log_decision(alloc, &read, &decision)?,
    })
}
