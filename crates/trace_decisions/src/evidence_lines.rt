//! The line on evidence.
ghost use Rattle.std.specs.Prelude.{◌≡◌, ◌++◌, IfOk, codes, string_bytes};
ghost use Rattle.trace_reports.specs.declared.answers.Answer.{Answer};
ghost use Rattle.trace_decisions.specs.DecisionTexts.{AnswerSays};
ghost use Rattle.trace_decisions.specs.EvidenceReports.{IsEvidenceLine, IsEvidenceReport, evidence_refusal_text, order_fault_text, refutation_fault_text};

use crate::texts::answer_by;
use order_check::{OrderFault, check_order};
use refutation_check::{RefutationFault, check_refutation};
use std::alloc::Global;
use trace_judging::EvidenceKind;
use trace_reports::{Answer, Report};
use tso_evidence::{Evidence, EvidenceFault, EvidenceTextFault, RefutationLine, read_evidence};
use tso_ops::{OutOfMemory, Trace};

/// Orders, refutations and unwritten loads, as evidence.
#[derive(Clone, Copy)]
pub struct OrdersAndRefutations;

impl EvidenceKind for OrdersAndRefutations {
    type Verdict = Answer;

    ghost is_report = { IsEvidenceReport };

    ghost refusing = { Answer.Refused };

    ghost says = { AnswerSays };

    fn report(
        &self,
        alloc: Global,
        trace: &Trace,
        input: &[u8],
    ) -> Result<Report<Answer>, OutOfMemory> {
        // Its clause `kept`, that the trace is within the limits of traces, is what `says` rests on.
        let _events = trace.events();
        match read_evidence(alloc, input) {
            Ok(Evidence::Unwritten(n)) => line_on_load(alloc, trace, n),
            Ok(Evidence::Order(order)) => line_on_order(alloc, trace, order.items()),
            Ok(Evidence::Refutation(lines)) => line_on_refutation(alloc, trace, lines.items()),
            Err(fault) if fault.why == EvidenceFault::OutOfMemory => Err(OutOfMemory),
            Err(fault) => Ok(Report {
                verdict: Answer::Refused,
                text: unread_text(alloc, fault)?,
            }),
        }
    }

    fn refusal(&self) -> Answer {
        Answer::Refused
    }
}

/// The line on a load that is said to be unwritten.
fn line_on_load(alloc: Global, trace: &Trace, n: u64) -> Result<Report<Answer>, OutOfMemory>
    ensures { IfOk result (λ report. IsEvidenceLine trace.now (Evidence.Unwritten n) (string_bytes report.text) report.verdict) }
{
    if trace.is_unwritten(n as usize) {
        Ok(Report {
            verdict: Answer::Violation,
            text: String::from_str(alloc, "REFUTATION HOLDS\n")?,
        })
    } else {
        Ok(Report {
            verdict: Answer::Refused,
            text: String::from_str(alloc, "REFUTATION REFUSED NotUnwritten\n")?,
        })
    }
}

/// The line on an order.
fn line_on_order(alloc: Global, trace: &Trace, order: &[u64]) -> Result<Report<Answer>, OutOfMemory>
    ensures { IfOk result (λ report. IsEvidenceLine trace.now (Evidence.Order order.now) (string_bytes report.text) report.verdict) }
{
    match check_order(alloc, trace, order)? {
        Ok(()) => Ok(Report {
            verdict: Answer::Clear,
            text: String::from_str(alloc, "ORDER HOLDS\n")?,
        }),
        Err(fault) => Ok(Report {
            verdict: Answer::Refused,
            text: order_refused(alloc, fault)?,
        }),
    }
}

/// The line on a refutation.
fn line_on_refutation(
    alloc: Global,
    trace: &Trace,
    lines: &[RefutationLine],
) -> Result<Report<Answer>, OutOfMemory>
    ensures { IfOk result (λ report. IsEvidenceLine trace.now (Evidence.Refutation lines.now) (string_bytes report.text) report.verdict) }
{
    match check_refutation(alloc, trace, lines)? {
        Ok(()) => Ok(Report {
            verdict: Answer::Violation,
            text: String::from_str(alloc, "REFUTATION HOLDS\n")?,
        }),
        Err(fault) => Ok(Report {
            verdict: Answer::Refused,
            text: refutation_refused(alloc, fault)?,
        }),
    }
}

/// The line of a refused text of evidence.
fn unread_text(alloc: Global, fault: EvidenceTextFault) -> Result<String, OutOfMemory>
    ensures { IfOk result (λ text. string_bytes text ≡ evidence_refusal_text fault.line fault.why) }
{
    let name = fault.why.name();
    let line = fault.line;
    format!(in alloc; "EVIDENCE REFUSED {name} line {line}\n")
}

/// The line of an order that doesn't meet the axioms.
fn order_refused(alloc: Global, fault: OrderFault) -> Result<String, OutOfMemory>
    ensures { IfOk result (λ text. string_bytes text ≡ codes "ORDER REFUSED " ++ order_fault_text fault ++ codes "\n") }
{
    match fault {
        OrderFault::NotAnEvent(place) => {
            format!(in alloc; "ORDER REFUSED NotAnEvent place {place}\n")
        }
        OrderFault::Repeated(place) => format!(in alloc; "ORDER REFUSED Repeated place {place}\n"),
        OrderFault::Missing(event) => format!(in alloc; "ORDER REFUSED Missing event {event}\n"),
        OrderFault::Broken { axiom, event } => {
            let name = axiom.name();
            format!(in alloc; "ORDER REFUSED {name} event {event}\n")
        }
    }
}

/// The line of a refutation that doesn't hold.
fn refutation_refused(alloc: Global, fault: RefutationFault) -> Result<String, OutOfMemory>
    ensures { IfOk result (λ text. string_bytes text ≡ codes "REFUTATION REFUSED " ++ refutation_fault_text fault ++ codes "\n") }
{
    match fault {
        RefutationFault::Misplaced(line) => {
            format!(in alloc; "REFUTATION REFUSED Misplaced line {line}\n")
        }
        RefutationFault::Unfinished => String::from_str(alloc, "REFUTATION REFUSED Unfinished\n"),
        RefutationFault::EventRange => String::from_str(alloc, "REFUTATION REFUSED EventRange\n"),
        RefutationFault::BaseRefused(line) => {
            format!(in alloc; "REFUTATION REFUSED BaseRefused line {line}\n")
        }
        RefutationFault::SideRefused(line) => {
            format!(in alloc; "REFUTATION REFUSED SideRefused line {line}\n")
        }
        RefutationFault::PathUnlisted(line) => {
            format!(in alloc; "REFUTATION REFUSED PathUnlisted line {line}\n")
        }
        RefutationFault::CaseRefused(line) => {
            format!(in alloc; "REFUTATION REFUSED CaseRefused line {line}\n")
        }
        RefutationFault::CycleUnlisted(line) => {
            format!(in alloc; "REFUTATION REFUSED CycleUnlisted line {line}\n")
        }
        RefutationFault::EmptyCycle(line) => {
            format!(in alloc; "REFUTATION REFUSED EmptyCycle line {line}\n")
        }
    }
}
