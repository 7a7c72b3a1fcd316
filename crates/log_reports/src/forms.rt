//! The forms in which is rendered what was found in a log: as lines, as lines with explanations, as traces, or as evidence by values.
ghost use Rattle.std.specs.Prelude.{refl};
ghost use Rattle.trace_reports.specs.Reports.{rendered_refusal};
ghost use Rattle.log_reports.specs.LogRefusals.{log_refusal_explained, log_refusal_whole};
ghost use Rattle.log_reports.specs.LogTexts.{log_evidence_text, log_explained, log_lines, log_traces};

use crate::counts::LogCounts;
use crate::findings::LogFindings;
use crate::refusals::explain_log_refusal;
use crate::rendering::{render_report, render_traces};
use crate::value_rendering::render_evidence;
use log_selections::KnownLog;
use log_text::LineTags;
use request_options::LogOptions;
use std::alloc::Global;
use trace_reports::{AsReport, Rendering};
use tso_ops::OutOfMemory;
use tso_text::TextFault;

/// What was found in a log, and what was looked for.
#[derive(Drop)]
pub struct LogFound {
    /// What was looked for, and for how long.
    pub options: LogOptions,
    /// What the log has.
    pub counts: LogCounts,
    /// What was found in it.
    pub findings: LogFindings,
    /// The tags of its lines, and from which of them its operations come.
    pub tags: LineTags,
}

/// The report: the lines of each violation; or the line of a refusal.
#[derive(Clone, Copy)]
pub struct AsLogLines;

/// The report, with an explanation after the lines of each violation; or the line of a refusal, and what explains it.
#[derive(Clone, Copy)]
pub struct AsExplainedLog;

/// The texts of the violations' traces, one after another, and no report; or the line of a refusal. A load of what nothing wrote
/// has a trace with such a load alone.
#[derive(Clone, Copy)]
pub struct AsLogTraces;

/// The text of the evidence by values of a violation, and no report; or the line of a refusal. Nothing where no evidence by values
/// was found.
#[derive(Clone, Copy)]
pub struct AsLogEvidence;

impl Rendering<KnownLog, LogFound> for AsLogLines {
    ghost rendered = { λ _. log_lines };

    ghost refused = { λ _. rendered_refusal };

    fn text_of_found(
        &self,
        alloc: Global,
        _known: &KnownLog,
        found: &LogFound,
    ) -> Result<String, OutOfMemory> {
        render_report(alloc, false, found)
    }

    fn text_of_refusal(
        &self,
        alloc: Global,
        input: &[u8],
        fault: TextFault,
    ) -> Result<String, OutOfMemory> {
        AsReport.text_of_refusal(alloc, input, fault)
    }

    ghost whole = { λ _ a b why. refl };
}

impl Rendering<KnownLog, LogFound> for AsExplainedLog {
    ghost rendered = { λ _. log_explained };

    ghost refused = { λ _. log_refusal_explained };

    fn text_of_found(
        &self,
        alloc: Global,
        _known: &KnownLog,
        found: &LogFound,
    ) -> Result<String, OutOfMemory> {
        render_report(alloc, true, found)
    }

    fn text_of_refusal(
        &self,
        alloc: Global,
        input: &[u8],
        fault: TextFault,
    ) -> Result<String, OutOfMemory> {
        let mut text = AsReport.text_of_refusal(alloc, input, fault)?;
        explain_log_refusal(&mut text, input, fault)?;
        Ok(text)
    }

    ghost whole = { λ _. log_refusal_whole };
}

impl Rendering<KnownLog, LogFound> for AsLogTraces {
    ghost rendered = { λ _. log_traces };

    ghost refused = { λ _. rendered_refusal };

    fn text_of_found(
        &self,
        alloc: Global,
        known: &KnownLog,
        found: &LogFound,
    ) -> Result<String, OutOfMemory> {
        render_traces(alloc, known.log().order, &found.findings)
    }

    fn text_of_refusal(
        &self,
        alloc: Global,
        input: &[u8],
        fault: TextFault,
    ) -> Result<String, OutOfMemory> {
        AsReport.text_of_refusal(alloc, input, fault)
    }

    ghost whole = { λ _ a b why. refl };
}

impl Rendering<KnownLog, LogFound> for AsLogEvidence {
    ghost rendered = { λ _. log_evidence_text };

    ghost refused = { λ _. rendered_refusal };

    fn text_of_found(
        &self,
        alloc: Global,
        known: &KnownLog,
        found: &LogFound,
    ) -> Result<String, OutOfMemory> {
        render_evidence(alloc, known.log(), &found.findings.violations)
    }

    fn text_of_refusal(
        &self,
        alloc: Global,
        input: &[u8],
        fault: TextFault,
    ) -> Result<String, OutOfMemory> {
        AsReport.text_of_refusal(alloc, input, fault)
    }

    ghost whole = { λ _ a b why. refl };
}
