//! Of what is said of a trace and of a decision: reports, explanations, pictures.

use decision_explanation::explain_evidence;
use decision_pictures::draw_evidence;
use std::alloc::{AllocError, Global};
use trace_explanation::{EventNames, explain, explain_named};
use trace_pictures::draw;
use trace_reports::{AsReport, Finding, Rendering};
use tso_evidence::Evidence;
use tso_ops::Trace;

/// `trace_reports`: the report of a trace of which something was found.
pub fn report_of_a_finding(
    alloc: Global,
    trace: &Trace,
    finding: &Finding,
) -> Result<String, AllocError> {
    let report = AsReport.text_of_found(alloc, trace, finding)?;
    Ok(report)
}

/// `trace_explanation`: why a trace is a violation, with the names that it has.
pub fn explanation_of_a_finding(
    alloc: Global,
    text: &mut String,
    trace: &Trace,
    finding: &Finding,
) -> Result<(), AllocError> {
    explain(alloc, text, trace, &finding.certificate)?;
    Ok(())
}

/// `trace_explanation`: the same with other names.
pub fn explanation_with_names(
    alloc: Global,
    text: &mut String,
    trace: &Trace,
    finding: &Finding,
    names: &EventNames,
) -> Result<(), AllocError> {
    explain_named(alloc, text, trace, &finding.certificate, names)?;
    Ok(())
}

/// `trace_pictures`: the picture of a violation.
pub fn picture_of_a_finding(
    alloc: Global,
    text: &mut String,
    trace: &Trace,
    finding: &Finding,
) -> Result<(), AllocError> {
    draw(alloc, text, trace, &finding.certificate)?;
    Ok(())
}

/// `decision_explanation`: the words of an order or a refutation.
pub fn explanation_of_evidence(
    alloc: Global,
    text: &mut String,
    trace: &Trace,
    evidence: &Evidence,
) -> Result<(), AllocError> {
    explain_evidence(alloc, text, trace, evidence)?;
    Ok(())
}

/// `decision_pictures`: the picture of an order or a refutation.
pub fn picture_of_evidence(
    alloc: Global,
    text: &mut String,
    trace: &Trace,
    evidence: &Evidence,
) -> Result<(), AllocError> {
    draw_evidence(alloc, text, trace, evidence)?;
    Ok(())
}
