//! The explanation of a decision.
ghost use Rattle.std.specs.Prelude.{◌≡◌, ◌++◌, string_bytes, OnOk};
ghost use Rattle.decision_explanation.specs.Explanations.{evidence_explanation, refutation_explanation, undecided_explanation};

use crate::cases::push_cases;
use crate::certificates::certificate_of;
use crate::orders::push_order;
use std::alloc::{AllocError, Global};
use std::fmt::Write;
use trace_explanation::explain;
use tso_cert::Certificate;
use tso_evidence::{Evidence, RefutationLine};
use tso_ops::Trace;

/// Appends why a trace has a memory order or has none, by the evidence that a decision has. It follows the verdict of a
/// decision. Evidence that doesn't hold for the trace gets a text too.
///
/// OutOfMemory where an allocation was refused.
pub fn explain_evidence(
    alloc: Global,
    text: &mut String,
    trace: &Trace,
    evidence: &Evidence,
) -> Result<(), AllocError>
    ensures { OnOk result (string_bytes text.new ≡ string_bytes text.old ++ evidence_explanation trace.now evidence.now) }
{
    match evidence {
        Evidence::Unwritten(n) => explain(alloc, text, trace, &Some(Certificate::Unwritten(*n))),
        Evidence::Order(order) => push_order(alloc, text, trace, order.items()),
        Evidence::Refutation(lines) => push_refutation(alloc, text, trace, lines.items()),
    }
}

/// Appends why a trace has no memory order, by the lines of a refutation.
fn push_refutation(
    alloc: Global,
    text: &mut String,
    trace: &Trace,
    lines: &[RefutationLine],
) -> Result<(), AllocError>
    ensures { OnOk result (string_bytes text.new ≡ string_bytes text.old ++ refutation_explanation trace.now lines.now) }
{
    let certificate = certificate_of(alloc, lines)?;
    match certificate {
        Some(_) => explain(alloc, text, trace, &certificate),
        None => push_cases(alloc, text, trace, lines),
    }
}

/// Appends that the search ended after this many steps without a memory order and without a refutation, and that this shows
/// nothing. It follows the verdict of a decision.
///
/// OutOfMemory where an allocation was refused.
#[tactic(auto, unfolding(crate::specs::Explanations::undecided_explanation))]
pub fn explain_undecided(text: &mut String, steps: u64) -> Result<(), AllocError>
    ensures { OnOk result (string_bytes text.new ≡ string_bytes text.old ++ undecided_explanation steps) }
{
    write!(
        text,
        "\nThe search ended after {steps} steps, with neither a memory order of this trace nor a refutation.\nThat does not show whether there is a memory order. A greater --effort allows more steps.\n"
    )
}
