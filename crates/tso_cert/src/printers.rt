ghost use Rattle.std.specs.Prelude.{◌≡◌, ◌++◌, All, string_bytes, OnOk, IfOk};
ghost use Rattle.std.specs.List.{flat_map};
ghost use Rattle.line_text.specs.Lines.{line_text};
ghost use Rattle.tso_cert.specs.Printed.{step_tokens, steps_tokens, cert_text, StepFits, CertFits};
ghost use Rattle.tso_cert.specs.Spelling.{SpellsCertificate};

use crate::faults::OutOfMemory;
use crate::parts::{print_event, print_events, print_reason};
use crate::steps::{CertStep, Certificate};
use std::alloc::Global;
use std::fmt::Write;

/// The text of a certificate. It spells the certificate, so `read_cert` reads it back. OutOfMemory where an allocation was
/// refused.
pub fn print_cert(alloc: Global, certificate: &Certificate) -> Result<String, OutOfMemory>
    ensures lines { IfOk result (λ text. string_bytes text ≡ cert_text certificate.now) }
    ensures spells { IfOk result (λ text. SpellsCertificate (string_bytes text) certificate.now) }
{
    let mut text = String::new(alloc);
    print_lines(&mut text, certificate)?;
    Ok(text)
}

/// Appends the lines of a certificate.
fn print_lines(text: &mut String, certificate: &Certificate) -> Result<(), OutOfMemory>
    ensures lines { OnOk result (string_bytes text.new ≡ string_bytes text.old ++ cert_text certificate.now) }
    ensures fits { OnOk result (CertFits certificate.now) }
{
    match certificate {
        Certificate::Unwritten(n) => {
            text.push_str("unwritten")?;
            print_event(text, *n)?;
            text.push_str("\n")
        }
        Certificate::Cycle { steps, cycle } => {
            print_steps(text, steps.items())?;
            text.push_str("cycle")?;
            print_events(text, cycle.items())?;
            text.push_str("\n")
        }
    }
}

/// Appends the lines of steps.
fn print_steps(text: &mut String, steps: &[CertStep]) -> Result<(), OutOfMemory>
    ensures lines { OnOk result (string_bytes text.new ≡ string_bytes text.old ++ flat_map line_text (steps_tokens 1 steps.now)) }
    ensures fits { OnOk result (All StepFits steps.now) }
{
    for (k, step) in steps.iter().enumerate() {
        print_step(text, k + 1, step)?;
    }
    Ok(())
}

/// Appends the line of the step with this number.
fn print_step(text: &mut String, number: usize, step: &CertStep) -> Result<(), OutOfMemory>
    ensures line { OnOk result (string_bytes text.new ≡ string_bytes text.old ++ line_text (step_tokens number step.now)) }
    ensures fits { OnOk result (StepFits step.now) }
{
    write!(text, "{number}")?;
    print_event(text, step.from)?;
    print_event(text, step.to)?;
    print_reason(text, &step.reason)?;
    text.push_str("\n")
}
