//! Explanations as a rendering of what is found of a trace.
ghost use Rattle.trace_explanation.specs.Explained.{explained, refusal_explained, whole_explained};

use crate::explanations::explain;
use crate::refusals::explain_refusal;
use std::alloc::Global;
use trace_reports::{AsReport, Finding, Rendering, render_head};
use tso_ops::{OutOfMemory, Trace};
use tso_text::TextFault;

/// The explanation: the report up to its verdict, and what explains it; or the line of a refusal, and what is said of it.
#[derive(Clone, Copy)]
pub struct AsExplanation;

impl Rendering<Trace, Finding> for AsExplanation {
    ghost rendered = { λ form. explained };

    ghost refused = { λ form. refusal_explained };

    fn text_of_found(
        &self,
        alloc: Global,
        trace: &Trace,
        finding: &Finding,
    ) -> Result<String, OutOfMemory> {
        let mut text = render_head(alloc, trace, finding)?;
        explain(alloc, &mut text, trace, &finding.certificate)?;
        Ok(text)
    }

    fn text_of_refusal(
        &self,
        alloc: Global,
        input: &[u8],
        fault: TextFault,
    ) -> Result<String, OutOfMemory> {
        let mut text = AsReport.text_of_refusal(alloc, input, fault)?;
        explain_refusal(&mut text, input, fault)?;
        Ok(text)
    }

    ghost whole = { λ form. whole_explained };
}
