//! The text of a decision on a log.
ghost use Rattle.std.specs.Prelude.{◌≡◌, ◌++◌, IfOk, OnOk, string_bytes};
ghost use Rattle.log_text.specs.LogValues.{log_value};
ghost use Rattle.log_decisions.specs.LogDecisions.{answer_of_log, log_answer_line, log_decision_head, log_decision_text, log_evidence_shown};

use crate::decisions::LogDecision;
use log_text::Log;
use std::alloc::Global;
use std::fmt::Write;
use trace_reports::Answer;
use tso_ops::OutOfMemory;
use value_evidence::LogEvidence;
use value_texts::{EventName, names_of, print_log_evidence};

/// The text of a decision on a log whose idle swaps are read: its head, and the evidence. OutOfMemory where an allocation was refused,
/// or the evidence has the number of no event.
pub(crate) fn render_log_decision(
    alloc: Global,
    read: &Log,
    decision: &LogDecision,
) -> Result<String, OutOfMemory>
    ensures { IfOk result (λ text. string_bytes text ≡ log_decision_text (log_value read.now) decision.now) }
{
    let names = names_of(alloc, read)?;
    let processors = read.lists.len();
    let events = names.len();
    let left = read.left_out;
    let mut text = format!(in alloc;
        "TSO LOG DECISION 1\nprocessors {processors} events {events} left {left}\n"
    )?;
    print_answer(&mut text, decision)?;
    print_shown(&mut text, &names, decision)?;
    Ok(text)
}

/// Appends the line of the answer.
fn print_answer(text: &mut String, decision: &LogDecision) -> Result<(), OutOfMemory>
    ensures { OnOk result (string_bytes text.new ≡ string_bytes text.old ++ log_answer_line decision.now) }
{
    match decision {
        LogDecision::Decided(LogEvidence::Order(_)) => text.push_str("CONSISTENT\n")?,
        LogDecision::Decided(LogEvidence::Refutation(_)) => text.push_str("VIOLATION\n")?,
        LogDecision::Undecided(cases) => write!(text, "UNDECIDED {cases}\n")?,
    }
    Ok(())
}

/// Appends the evidence, where there is any.
fn print_shown(
    text: &mut String,
    names: &[EventName],
    decision: &LogDecision,
) -> Result<(), OutOfMemory>
    ensures { OnOk result (string_bytes text.new ≡ string_bytes text.old ++ log_evidence_shown names.now decision.now) }
{
    match decision {
        LogDecision::Decided(evidence) => {
            print_log_evidence(text, names, evidence).map_err(|_| OutOfMemory)
        }
        LogDecision::Undecided(_) => Ok(()),
    }
}

/// What a decision says.
pub(crate) fn answer_of_log(decision: &LogDecision) -> Answer
    ensures { result ≡ answer_of_log decision.now }
{
    match decision {
        LogDecision::Decided(LogEvidence::Order(_)) => Answer::Clear,
        LogDecision::Decided(LogEvidence::Refutation(_)) => Answer::Violation,
        LogDecision::Undecided(_) => Answer::Undecided,
    }
}
