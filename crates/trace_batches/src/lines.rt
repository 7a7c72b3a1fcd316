//! The lines of a batch, in words, in JSON and in JUnit's XML.
ghost use Rattle.std.specs.Prelude.{◌≡◌, ◌++◌, IfOk, codes, string_bytes};
ghost use Rattle.std.specs.Fmt.{decimal};
ghost use Rattle.trace_batches.specs.Batches.{batch_head_text, is_left_out, last_format, note_format, written_line};
ghost use Rattle.trace_batches.specs.Internal.Progress.{printing_by};
ghost use Rattle.trace_batches.specs.BatchLines.{head_of, json_line, json_refusal, json_undecided, json_verdict, trace_line, word_line};

use crate::batches::TextJudging;
use crate::judgments::Judgment;
use crate::suites::{JUNIT_HEAD, junit_line};
use request_options::{BatchFormat, BatchPrinting};
use std::alloc::Global;
use std::fmt::Write;
use trace_reports::{render_refusal, verdict_line};
use tso_ops::OutOfMemory;
use tso_text::TextFault;

/// What stands before all lines.
pub(crate) fn head(printing: BatchPrinting) -> &'static str
    ensures { result.now ≡ batch_head_text printing }
{
    if printing.violations {
        ""
    } else {
        head_of(printing.format)
    }
}

/// What stands before all lines of this format.
fn head_of(format: BatchFormat) -> &'static str
    ensures { result.now ≡ head_of format }
{
    match format {
        BatchFormat::Words | BatchFormat::Json => "",
        BatchFormat::Junit => JUNIT_HEAD,
    }
}

/// The format of the last line, and of each note.
pub(crate) fn last_format(printing: BatchPrinting) -> BatchFormat
    ensures { result ≡ last_format printing }
{
    if printing.violations {
        note_format(printing.format)
    } else {
        printing.format
    }
}

/// The format of a note in place of a last line.
fn note_format(format: BatchFormat) -> BatchFormat
    ensures { result ≡ note_format format }
{
    match format {
        BatchFormat::Words | BatchFormat::Junit => BatchFormat::Words,
        BatchFormat::Json => BatchFormat::Json,
    }
}

/// The line of the trace of this number, or nothing where a quiet batch leaves it out.
pub(crate) fn written_line(
    judging: &TextJudging<'_>,
    number: u64,
    judgment: &Judgment,
) -> Result<String, OutOfMemory>
    ensures { IfOk result (λ line. string_bytes line ≡ written_line (printing_by judging.now) number judgment.now) }
{
    if is_left_out(judging.options.printing.quiet, judgment) {
        Ok(String::new(judging.alloc))
    } else {
        trace_line(judging, number, judgment)
    }
}

/// Whether a batch leaves out the line of a trace of which this is said.
fn is_left_out(quiet: bool, judgment: &Judgment) -> bool
    ensures { result ≡ is_left_out quiet judgment.now }
{
    match judgment {
        Judgment::NoViolation | Judgment::Consistent => quiet,
        Judgment::Violation(_) | Judgment::Undecided(_) | Judgment::Refused(_) => false,
    }
}

/// The line of the trace of this number.
fn trace_line(
    judging: &TextJudging<'_>,
    number: u64,
    judgment: &Judgment,
) -> Result<String, OutOfMemory>
    ensures { IfOk result (λ line. string_bytes line ≡ trace_line judging.now.options.printing.format judging.now.label.now number judgment.now) }
{
    match judging.options.printing.format {
        BatchFormat::Words => word_line(judging.alloc, judging.label, number, judgment),
        BatchFormat::Json => json_line(judging.alloc, judging.label, number, judgment),
        BatchFormat::Junit => junit_line(judging.alloc, judging.label, number, judgment),
    }
}

/// The line of the trace of this number, in words.
fn word_line(
    alloc: Global,
    label: &str,
    number: u64,
    judgment: &Judgment,
) -> Result<String, OutOfMemory>
    ensures { IfOk result (λ line. string_bytes line ≡ word_line label.now number judgment.now) }
{
    match judgment {
        Judgment::NoViolation => numbered(alloc, label, number, verdict_line(false)),
        Judgment::Violation(_) => numbered(alloc, label, number, verdict_line(true)),
        Judgment::Consistent => numbered(alloc, label, number, "CONSISTENT\n"),
        Judgment::Undecided(steps) => {
            let end = format!(in alloc; "UNDECIDED {steps}\n")?;
            numbered(alloc, label, number, end.as_str())
        }
        Judgment::Refused(fault) => {
            let refusal = render_refusal(alloc, *fault)?;
            numbered(alloc, label, number, refusal.text.as_str())
        }
    }
}

/// The line of the trace of this number that has this end.
fn numbered(alloc: Global, label: &str, number: u64, end: &str) -> Result<String, OutOfMemory>
    ensures { IfOk result (λ line. string_bytes line ≡ label.now ++ codes "trace " ++ decimal number ++ codes " " ++ end.now) }
{
    let mut line = String::new(alloc);
    write!(line, "{label}trace {number} {end}")?;
    Ok(line)
}

/// The line of the trace of this number, in JSON.
fn json_line(
    alloc: Global,
    label: &str,
    number: u64,
    judgment: &Judgment,
) -> Result<String, OutOfMemory>
    ensures { IfOk result (λ line. string_bytes line ≡ json_line label.now number judgment.now) }
{
    match judgment {
        Judgment::NoViolation => json_verdict(alloc, label, number, "no_violation_found"),
        Judgment::Violation(_) => json_verdict(alloc, label, number, "violation"),
        Judgment::Consistent => json_verdict(alloc, label, number, "consistent"),
        Judgment::Undecided(steps) => json_undecided(alloc, label, number, *steps),
        Judgment::Refused(fault) => json_refusal(alloc, label, number, *fault),
    }
}

/// The line of the trace of this number with this verdict, in JSON.
fn json_verdict(
    alloc: Global,
    label: &str,
    number: u64,
    verdict: &str,
) -> Result<String, OutOfMemory>
    ensures { IfOk result (λ line. string_bytes line ≡ json_verdict label.now number verdict.now) }
{
    let mut line = String::new(alloc);
    write!(
        line,
        "{{{label}\"trace\":{number},\"verdict\":\"{verdict}\"}}\n"
    )?;
    Ok(line)
}

/// The line of the text of this number that is refused for this fault, in JSON.
#[tactic(auto, unfolding(crate::specs::BatchLines::json_refusal))]
fn json_refusal(
    alloc: Global,
    label: &str,
    number: u64,
    fault: TextFault,
) -> Result<String, OutOfMemory>
    ensures { IfOk result (λ line. string_bytes line ≡ json_refusal label.now number fault) }
{
    let name = fault.why.name();
    let at = fault.line;
    let mut line = String::new(alloc);
    write!(
        line,
        "{{{label}\"trace\":{number},\"verdict\":\"refused\",\"name\":\"{name}\",\"line\":{at}}}\n"
    )?;
    Ok(line)
}

/// The line of the trace of this number that is undecided after so many steps, in JSON.
#[tactic(auto, unfolding(crate::specs::BatchLines::json_undecided))]
fn json_undecided(
    alloc: Global,
    label: &str,
    number: u64,
    steps: u64,
) -> Result<String, OutOfMemory>
    ensures { IfOk result (λ line. string_bytes line ≡ json_undecided label.now number steps) }
{
    let mut line = String::new(alloc);
    write!(
        line,
        "{{{label}\"trace\":{number},\"verdict\":\"undecided\",\"steps\":{steps}}}\n"
    )?;
    Ok(line)
}
