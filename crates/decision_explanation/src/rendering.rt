//! Explanations as a rendering of decisions.
ghost use Rattle.std.specs.Prelude.{◌≡◌, ◌++◌, string_bytes, OnOk};
ghost use Rattle.trace_explanation.specs.Explained.{refusal_explained, whole_explained};
ghost use Rattle.decision_explanation.specs.Explained.{decision_explained, explained_by};

use crate::explanations::{explain_evidence, explain_undecided};
use std::alloc::Global;
use trace_decisions::{Decision, render_decision_head};
use trace_explanation::AsExplanation;
use trace_reports::Rendering;
use tso_ops::{OutOfMemory, Trace};
use tso_text::TextFault;

/// The explanation of a decision: its head, and what explains it; or the line of a refusal, and what is said of it.
#[derive(Clone, Copy)]
pub struct AsDecisionExplanation;

impl Rendering<Trace, Decision> for AsDecisionExplanation {
    ghost rendered = { λ form. decision_explained };

    ghost refused = { λ form. refusal_explained };

    fn text_of_found(
        &self,
        alloc: Global,
        trace: &Trace,
        decision: &Decision,
    ) -> Result<String, OutOfMemory> {
        let mut text = render_decision_head(alloc, trace, decision)?;
        explain_decision(alloc, &mut text, trace, decision)?;
        Ok(text)
    }

    fn text_of_refusal(
        &self,
        alloc: Global,
        input: &[u8],
        fault: TextFault,
    ) -> Result<String, OutOfMemory> {
        AsExplanation.text_of_refusal(alloc, input, fault)
    }

    ghost whole = { λ form. whole_explained };
}

/// Appends what explains a decision.
fn explain_decision(
    alloc: Global,
    text: &mut String,
    trace: &Trace,
    decision: &Decision,
) -> Result<(), OutOfMemory>
    ensures { OnOk result (string_bytes text.new ≡ string_bytes text.old ++ explained_by trace.now decision.now) }
{
    match decision {
        Decision::Decided(evidence) => explain_evidence(alloc, text, trace, evidence),
        Decision::Undecided(steps) => explain_undecided(text, *steps),
    }
}
