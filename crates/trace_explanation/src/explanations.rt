//! The explanation of a trace.
ghost use Rattle.std.specs.Prelude.{◌≡◌, ◌++◌, string_bytes, OnOk};
ghost use Rattle.trace_explanation.specs.Explanations.{explanation_by, explanation_text, silence_text};

use crate::cycles::{model_name, push_cycle};
use crate::names::NamedTrace;
use crate::namings::EventNames;
use crate::subjects::{Subject, noun};
use crate::unwritten::push_unwritten;
use std::alloc::{AllocError, Global};
use std::fmt::Write;
use tso_cert::Certificate;
use tso_ops::{Order, Trace};

/// Appends the explanation of a trace: by its certificate, where it is a violation. It follows the verdict of a report.
///
/// OutOfMemory where an allocation was refused.
pub fn explain(
    alloc: Global,
    text: &mut String,
    trace: &Trace,
    certificate: &Option<Certificate>,
) -> Result<(), AllocError>
    ensures { OnOk result (string_bytes text.new ≡ string_bytes text.old ++ explanation_text trace.now certificate.now) }
{
    match certificate {
        None => push_silence(text, trace.order(), Subject::Trace),
        Some(_) => {
            let names = EventNames::of_trace(alloc, trace)?;
            explain_named(alloc, text, trace, certificate, &names)
        },
    }
}

/// Appends the explanation of a trace, as `explain` does, with these names, lines and addresses of its events: those of the
/// log that it was selected from.
///
/// OutOfMemory where an allocation was refused.
pub fn explain_named(
    alloc: Global,
    text: &mut String,
    trace: &Trace,
    certificate: &Option<Certificate>,
    names: &EventNames,
) -> Result<(), AllocError>
    ensures { OnOk result (string_bytes text.new ≡ string_bytes text.old ++ explanation_by names.now trace.now certificate.now) }
{
    let named = NamedTrace { trace, names };
    match certificate {
        None => push_silence(text, trace.order(), names.subject()),
        Some(Certificate::Unwritten(n)) => push_unwritten(alloc, text, &named, *n as usize),
        Some(Certificate::Cycle { steps, cycle }) => {
            push_cycle(alloc, text, &named, steps.items(), cycle.items())
        },
    }
}

/// Appends that no violation was found, and that this shows nothing.
#[tactic(auto, unfolding(crate::specs::Explanations::silence_text))]
fn push_silence(text: &mut String, order: Order, subject: Subject) -> Result<(), AllocError>
    ensures { OnOk result (string_bytes text.new ≡ string_bytes text.old ++ silence_text order subject) }
{
    let model = model_name(order);
    let noun = noun(subject);
    write!(
        text,
        "\nThe rules found no contradiction in this {noun}.\nThat does not show that it has a memory order that {model} allows.\n"
    )
}
