//! The line on evidence about a log.
ghost use Rattle.std.specs.Prelude.{◌≡◌, List, string_bytes, IfOk};
ghost use Rattle.log_text.specs.LogValues.{log_operations, log_value};
ghost use Rattle.log_thinning.specs.IdleSwaps.{with_idle_swaps_read};
ghost use Rattle.value_texts.specs.declared.names.EventName.{EventName};
ghost use Rattle.value_texts.specs.Printed.{log_evidence_value, order_of, refutation_of, event_token};
ghost use Rattle.log_evidence.specs.LogChecks.{IsValueLine, IsValueReport, log_order_refused_text, values_refused_text, values_unread_text};

use log_order_check::check_log_order;
use log_text::Log;
use log_thinning::read_idle_swaps;
use order_check::OrderFault;
use std::alloc::Global;
use trace_reports::{Answer, Report};
use tso_ops::OutOfMemory;
use value_check::{ValueRefutationFault, check_value_refutation};
use value_evidence::{LogEvidence, ValueRefutationLine};
use value_texts::{EventName, ValueTextFault, ValueTextRefusal, names_of, read_log_evidence};

/// The line on the evidence about the log that a text spells, or on the text's refusal. OutOfMemory where an allocation was refused,
/// or a refutation is on a log of 2^32 loads and stores or more.
pub(crate) fn line_on_text(
    alloc: Global,
    log: &Log,
    input: &[u8],
) -> Result<Report<Answer>, OutOfMemory>
    ensures { IfOk result (λ report. IsValueReport (with_idle_swaps_read (log_value log.now)) input.now (string_bytes report.text) report.verdict) }
{
    let read = read_idle_swaps(alloc, log)?;
    let names = names_of(alloc, &read)?;
    match read_log_evidence(alloc, &names, input) {
        Ok(evidence) => line_on_evidence(alloc, &read, &names, &evidence),
        Err(fault) if fault.why == ValueTextRefusal::OutOfMemory => Err(OutOfMemory),
        Err(fault) => Ok(Report {
            verdict: Answer::Refused,
            text: unread_text(alloc, fault)?,
        }),
    }
}

/// The line on evidence about a log whose idle swaps are read, and whose events have these names.
fn line_on_evidence(
    alloc: Global,
    log: &Log,
    names: &[EventName],
    evidence: &LogEvidence,
) -> Result<Report<Answer>, OutOfMemory>
    ensures { IfOk result (λ report. IsValueLine (log_operations (log_value log.now)) names.now (log_evidence_value evidence.now)
        (string_bytes report.text) report.verdict) }
{
    match evidence {
        LogEvidence::Order(order) => line_on_order(alloc, log, names, order),
        LogEvidence::Refutation(lines) => line_on_refutation(alloc, log, lines),
    }
}

/// The line on an order.
fn line_on_order(
    alloc: Global,
    log: &Log,
    names: &[EventName],
    order: &[usize],
) -> Result<Report<Answer>, OutOfMemory>
    ensures { IfOk result (λ report. IsValueLine (log_operations (log_value log.now)) names.now (order_of order.now) (string_bytes report.text) report.verdict) }
{
    match check_log_order(alloc, log, order)? {
        Ok(()) => Ok(Report {
            verdict: Answer::Clear,
            text: String::from_str(alloc, "ORDER HOLDS\n")?,
        }),
        Err(fault) => Ok(Report {
            verdict: Answer::Refused,
            text: order_refused(alloc, names, fault)?,
        }),
    }
}

/// The line on a refutation.
fn line_on_refutation(
    alloc: Global,
    log: &Log,
    lines: &[ValueRefutationLine],
) -> Result<Report<Answer>, OutOfMemory>
    ensures { IfOk result (λ report. (names : List EventName) → IsValueLine (log_operations (log_value log.now)) names (refutation_of lines.now)
        (string_bytes report.text) report.verdict) }
{
    match check_value_refutation(alloc, log, lines)? {
        Ok(()) => Ok(Report {
            verdict: Answer::Violation,
            text: String::from_str(alloc, "REFUTATION HOLDS\n")?,
        }),
        Err(fault) => Ok(Report {
            verdict: Answer::Refused,
            text: refutation_refused(alloc, fault)?,
        }),
    }
}

/// The line of a refused text of evidence.
fn unread_text(alloc: Global, fault: ValueTextFault) -> Result<String, OutOfMemory>
    ensures { IfOk result (λ text. string_bytes text ≡ values_unread_text fault.line fault.why) }
{
    let name = fault.why.name();
    let line = fault.line;
    format!(in alloc; "EVIDENCE REFUSED {name} line {line}\n")
}

/// The line of an order that doesn't hold.
fn order_refused(
    alloc: Global,
    names: &[EventName],
    fault: OrderFault,
) -> Result<String, OutOfMemory>
    ensures { IfOk result (λ text. string_bytes text ≡ log_order_refused_text names.now fault) }
{
    match fault {
        OrderFault::NotAnEvent(place) => {
            format!(in alloc; "ORDER REFUSED NotAnEvent place {place}\n")
        }
        OrderFault::Repeated(place) => format!(in alloc; "ORDER REFUSED Repeated place {place}\n"),
        OrderFault::Missing(event) => {
            let name = name_text(alloc, names, event)?;
            format!(in alloc; "ORDER REFUSED Missing event {name}\n")
        }
        OrderFault::Broken { axiom, event } => {
            let law = axiom.name();
            let name = name_text(alloc, names, event)?;
            format!(in alloc; "ORDER REFUSED {law} event {name}\n")
        }
    }
}

/// The name of the event of this number. One that no event has gets line 0.
fn name_text(alloc: Global, names: &[EventName], event: usize) -> Result<String, OutOfMemory>
    ensures { IfOk result (λ text. string_bytes text ≡ event_token names.now event) }
{
    let nothing = EventName {
        line: 0,
        is_swap_store: false,
    };
    let name = names
        .get(event.saturating_sub(1))
        .copied()
        .unwrap_or(nothing);
    let line = name.line;
    let mark = if name.is_swap_store { "'" } else { "" };
    format!(in alloc; "{line}{mark}")
}

/// The line of a refutation that doesn't hold.
fn refutation_refused(alloc: Global, fault: ValueRefutationFault) -> Result<String, OutOfMemory>
    ensures { IfOk result (λ text. string_bytes text ≡ values_refused_text fault) }
{
    match fault {
        ValueRefutationFault::Misplaced(line) => {
            format!(in alloc; "REFUTATION REFUSED Misplaced line {line}\n")
        }
        ValueRefutationFault::Unfinished => {
            String::from_str(alloc, "REFUTATION REFUSED Unfinished\n")
        }
        ValueRefutationFault::StepRefused(line) => {
            format!(in alloc; "REFUTATION REFUSED StepRefused line {line}\n")
        }
        ValueRefutationFault::CaseRefused(line) => {
            format!(in alloc; "REFUTATION REFUSED CaseRefused line {line}\n")
        }
        ValueRefutationFault::EndRefused(line) => {
            format!(in alloc; "REFUTATION REFUSED EndRefused line {line}\n")
        }
    }
}
