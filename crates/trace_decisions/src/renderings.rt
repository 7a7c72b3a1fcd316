//! The text of a decision.
ghost use Rattle.std.specs.Prelude.{◌≡◌, ◌++◌, refl, IfOk, OnOk, string_bytes};
ghost use Rattle.trace_reports.specs.Reports.{rendered_refusal};
ghost use Rattle.trace_decisions.specs.DecisionTexts.{answer_line, decided_line, decision_head, decision_text, rendered_evidence};

use crate::decisions::Decision;
use std::alloc::Global;
use std::fmt::Write;
use trace_reports::{AsReport, Rendering};
use tso_evidence::{Evidence, print_evidence};
use tso_ops::{OutOfMemory, Trace};
use tso_text::TextFault;

/// The text of a decision: its head, and the evidence; or the line of a refusal.
#[derive(Clone, Copy)]
pub struct AsDecision;

impl Rendering<Trace, Decision> for AsDecision {
    ghost rendered = { λ form. decision_text };

    ghost refused = { λ form. rendered_refusal };

    fn text_of_found(
        &self,
        alloc: Global,
        trace: &Trace,
        decision: &Decision,
    ) -> Result<String, OutOfMemory> {
        let mut text = render_decision_head(alloc, trace, decision)?;
        print_shown(&mut text, decision)?;
        Ok(text)
    }

    fn text_of_refusal(
        &self,
        alloc: Global,
        input: &[u8],
        fault: TextFault,
    ) -> Result<String, OutOfMemory> {
        AsReport.text_of_refusal(alloc, input, fault)
    }

    ghost whole = { λ form a b why. refl };
}

/// The first lines of what is said of a decision: how many processors and events the trace has, and whether it has an order.
/// OutOfMemory where an allocation was refused.
pub fn render_decision_head(
    alloc: Global,
    trace: &Trace,
    decision: &Decision,
) -> Result<String, OutOfMemory>
    ensures { IfOk result (λ text. string_bytes text ≡ decision_head trace.now decision.now) }
{
    let processors = trace.processors();
    let events = trace.events();
    let mut text = format!(in alloc; "TSO DECISION 1\nprocessors {processors} events {events}\n")?;
    print_answer(&mut text, decision)?;
    Ok(text)
}

/// Appends the line of the answer.
fn print_answer(text: &mut String, decision: &Decision) -> Result<(), OutOfMemory>
    ensures { OnOk result (string_bytes text.new ≡ string_bytes text.old ++ decided_line decision.now) }
{
    match decision {
        Decision::Decided(evidence) => text.push_str(answer_line(evidence)),
        Decision::Undecided(steps) => write!(text, "UNDECIDED {steps}\n"),
    }
}

/// The line that says whether there is an order.
fn answer_line(evidence: &Evidence) -> &'static str
    ensures { result.now ≡ answer_line evidence.now }
{
    match evidence {
        Evidence::Order(_) => "CONSISTENT\n",
        Evidence::Unwritten(_) | Evidence::Refutation(_) => "VIOLATION\n",
    }
}

/// Appends the evidence, where there is any.
fn print_shown(text: &mut String, decision: &Decision) -> Result<(), OutOfMemory>
    ensures { OnOk result (string_bytes text.new ≡ string_bytes text.old ++ rendered_evidence decision.now) }
{
    match decision {
        Decision::Decided(evidence) => print_evidence(text, evidence),
        Decision::Undecided(_) => Ok(()),
    }
}
