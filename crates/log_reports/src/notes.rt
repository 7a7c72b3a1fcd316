//! Notes on a search: what its report doesn't say.

use crate::findings::LogViolation;
use crate::forms::LogFound;
use crate::rendering::push_gaps;
use log_selections::Shown;
use log_text::LineTags;
use request_options::LogForm;
use std::alloc::{AllocError, Global};
use std::fmt::Write;
use tso_ops::OutOfMemory;

/// Lines on what was left out of what is printed, and why; nothing where all is there. If traces are printed, there is first a line for
/// each with the lines of the log that it has. OutOfMemory where an allocation was refused.
pub(crate) fn render_notes(alloc: Global, found: &LogFound) -> Result<String, OutOfMemory> {
    let findings = &found.findings;
    let mut text = String::new(alloc);
    match found.options.form {
        LogForm::Lines | LogForm::Explained => {}
        LogForm::Traces => push_origins(&mut text, &found.tags, &findings.violations)?,
        LogForm::Evidence => push_without_evidence(&mut text, &findings.violations)?,
    }
    push_note(
        &mut text,
        "proposals that were no violations",
        findings.mistaken,
    )?;
    push_note(
        &mut text,
        "evidence by values that its checker refused",
        findings.has_refused as usize,
    )?;
    push_note(
        &mut text,
        "violations of which lines might be left out",
        findings.unreduced,
    )?;
    if findings.parts > 1 {
        push_note(
            &mut text,
            "parts of the addresses searched apart",
            findings.parts,
        )?;
    }
    if !is_report(found.options.form) {
        let unjudged = findings.unjudged.len();
        push_note(&mut text, "unjudged, past the limits of a trace", unjudged)?;
        push_note(
            &mut text,
            "loads that only repeat others, passed over",
            findings.repeated,
        )?;
        push_gaps(&mut text, found)?;
    }
    Ok(text)
}

/// Whether it is the form of a report.
fn is_report(form: LogForm) -> bool {
    match form {
        LogForm::Lines | LogForm::Explained => true,
        LogForm::Traces | LogForm::Evidence => false,
    }
}

/// Appends how many violations have no evidence by values.
fn push_without_evidence(text: &mut String, violations: &[LogViolation]) -> Result<(), AllocError> {
    let mut without: usize = 0;
    for violation in violations {
        if !matches!(violation, LogViolation::ByValues(_)) {
            without = without.saturating_add(1);
        }
    }
    push_note(text, "violations without evidence by values", without)
}

/// Appends a line for each trace, with the numbers of its lines in the log: `trace 1 line 12 40`; and then how many violations have
/// none.
fn push_origins(
    text: &mut String,
    tags: &LineTags,
    violations: &[LogViolation],
) -> Result<(), AllocError> {
    let mut traces: usize = 0;
    for violation in violations {
        match violation {
            LogViolation::Selection { selected, .. } => {
                traces = traces.saturating_add(1);
                push_origin(text, tags, traces, &selected.shown)?;
            }
            LogViolation::Unwritten(load) => {
                traces = traces.saturating_add(1);
                push_origin(text, tags, traces, &[load.shown])?;
            }
            LogViolation::ByValues(_) => {}
        }
    }
    let without = violations.len().saturating_sub(traces);
    push_note(text, "violations by values, without a trace", without)
}

/// Appends a line for the trace of this number, with the numbers of its lines in the log.
fn push_origin(
    text: &mut String,
    tags: &LineTags,
    number: usize,
    shown: &[Shown],
) -> Result<(), AllocError> {
    write!(text, "trace {number} line")?;
    push_numbers(text, tags, shown)?;
    text.push_str("\n")
}

/// Appends the numbers of these lines, each after a space.
fn push_numbers(text: &mut String, tags: &LineTags, shown: &[Shown]) -> Result<(), AllocError> {
    for one in shown {
        let line = tags.origins.line(one.logged.line);
        write!(text, " {line}")?;
    }
    Ok(())
}

/// Appends a line with a number that isn't 0.
fn push_note(text: &mut String, words: &str, number: usize) -> Result<(), AllocError> {
    if number > 0 {
        write!(text, "{words} {number}\n")?;
    }
    Ok(())
}
