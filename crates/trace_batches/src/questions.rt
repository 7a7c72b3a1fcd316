//! What is asked of each trace of a batch, and what explains a violation.
ghost use Rattle.std.specs.Prelude.{◌≡◌, None, Some, option_map, string_bytes, IfOk};
ghost use Rattle.decision_explanation.specs.Explained.{decision_explained};
ghost use Rattle.trace_batches.specs.Batches.{asked, has_bodies};
ghost use Rattle.trace_batches.specs.Judgments.{body_of};
ghost use Rattle.trace_explanation.specs.Explained.{explained};

use decision_explanation::AsDecisionExplanation;
use request_options::{BatchFormat, BatchMethod, BatchPrinting};
use std::alloc::Global;
use std::marker::Model;
use trace_decisions::Decision;
use trace_explanation::AsExplanation;
use trace_reports::{Finding, Rendering};
use tso_ops::{OutOfMemory, Trace};

/// What is asked of each trace of a batch.
#[derive(Clone, Copy)]
pub(crate) struct BatchQuestion {
    /// How it is found out what is said of it.
    pub(crate) method: BatchMethod,
    /// Whether a violation is explained.
    pub(crate) explains: bool,
}

/// What is asked of each trace of a batch that is printed so.
pub(crate) fn asked(printing: BatchPrinting) -> BatchQuestion
    ensures { result ≡ asked printing }
{
    BatchQuestion {
        method: printing.method,
        explains: !printing.violations && has_bodies(printing.format),
    }
}

/// Whether lines of this format have what explains a violation.
fn has_bodies(format: BatchFormat) -> bool
    ensures { result ≡ has_bodies format }
{
    match format {
        BatchFormat::Words | BatchFormat::Json => false,
        BatchFormat::Junit => true,
    }
}

/// What explains a violation, where that is asked for.
#[derive(Drop)]
pub(crate) struct FailureBody {
    text: Option<String>,
}

impl Model for FailureBody {
    ghost use Rattle.std.specs.Prelude.{List, Option, ℕ, option_map, string_bytes};

    ghost Value = { Option (List ℕ) };

    ghost view = { λ body. option_map string_bytes body.text };
}

impl FailureBody {
    /// None, since it isn't asked for.
    pub(crate) fn none() -> FailureBody
        ensures { result ≡ None }
    {
        FailureBody { text: None }
    }

    /// This text.
    fn of(text: String) -> FailureBody
        ensures { result ≡ Some (string_bytes text) }
    {
        FailureBody { text: Some(text) }
    }

    /// The text, where there is one.
    pub(crate) fn text(&self) -> Option<&str>
        ensures { option_map (λ text. text.now) result ≡ self.now }
    {
        match &self.text {
            Some(text) => Some(text.as_str()),
            None => None,
        }
    }
}

/// What explains the violation that was found of a trace, where it is asked for. OutOfMemory where an allocation was refused.
pub(crate) fn explain_finding(
    alloc: Global,
    trace: &Trace,
    finding: &Finding,
    explains: bool,
) -> Result<FailureBody, OutOfMemory>
    ensures { IfOk result (λ body. body ≡ body_of explains (explained trace.now finding.now)) }
{
    if explains {
        let text = AsExplanation.text_of_found(alloc, trace, finding)?;
        Ok(FailureBody::of(text))
    } else {
        Ok(FailureBody::none())
    }
}

/// What explains the violation that a trace is by a decision, where it is asked for. OutOfMemory where an allocation was refused.
pub(crate) fn explain_decision(
    alloc: Global,
    trace: &Trace,
    decision: &Decision,
    explains: bool,
) -> Result<FailureBody, OutOfMemory>
    ensures { IfOk result (λ body. body ≡ body_of explains (decision_explained trace.now decision.now)) }
{
    if explains {
        let text = AsDecisionExplanation.text_of_found(alloc, trace, decision)?;
        Ok(FailureBody::of(text))
    } else {
        Ok(FailureBody::none())
    }
}
