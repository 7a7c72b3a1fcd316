//! Pictures as a rendering of decisions.
ghost use Rattle.std.specs.Prelude.{◌≡◌, ◌++◌, refl, string_bytes, OnOk};
ghost use Rattle.trace_reports.specs.Reports.{rendered_refusal};
ghost use Rattle.decision_pictures.specs.Pictured.{decision_pictured};

use crate::pictures::{draw_evidence, draw_undecided};
use std::alloc::Global;
use trace_decisions::Decision;
use trace_reports::{AsReport, Rendering};
use tso_ops::{OutOfMemory, Trace};
use tso_text::TextFault;

/// The picture of a trace with what was decided of it; or the line of a refusal.
#[derive(Clone, Copy)]
pub struct AsDecisionPicture;

impl Rendering<Trace, Decision> for AsDecisionPicture {
    ghost rendered = { λ form. decision_pictured };

    ghost refused = { λ form. rendered_refusal };

    fn text_of_found(
        &self,
        alloc: Global,
        trace: &Trace,
        decision: &Decision,
    ) -> Result<String, OutOfMemory> {
        let mut text = String::new(alloc);
        draw_decision(alloc, &mut text, trace, decision)?;
        Ok(text)
    }

    fn text_of_refusal(
        &self,
        alloc: Global,
        input: &[u8],
        fault: TextFault,
    ) -> Result<String, OutOfMemory> {
        AsReport.text_of_refusal(alloc, input, fault)
    }

    ghost whole = { λ form a b why. refl };
}

/// Appends the picture of a trace by a decision on it.
fn draw_decision(
    alloc: Global,
    text: &mut String,
    trace: &Trace,
    decision: &Decision,
) -> Result<(), OutOfMemory>
    ensures { OnOk result (string_bytes text.new ≡ string_bytes text.old ++ decision_pictured trace.now decision.now) }
{
    match decision {
        Decision::Decided(evidence) => draw_evidence(alloc, text, trace, evidence),
        Decision::Undecided(_) => draw_undecided(alloc, text, trace),
    }
}
