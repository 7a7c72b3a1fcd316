//! Whether the numbers of a certificate are numbers of events.
ghost use Rattle.std.specs.Prelude.{◌↔◌, IsTrue, All};
ghost use Rattle.tso_ops.specs.Limits.{IsTrace};
ghost use Rattle.cert_check.specs.Refusals.{AreUpTo, IsInRange, IsReasonUpTo, IsStepUpTo};

use tso_cert::{CertStep, Certificate, Reason};
use tso_ops::Trace;

/// Whether no number is above the number of events, and `init` isn't the unwritten load.
pub(crate) fn is_in_range(trace: &Trace, certificate: &Certificate) -> bool
    ensures within { IsTrue result ↔ IsInRange trace.now certificate.now }
    ensures kept { IsTrace trace.now }
{
    let last = trace.events() as u64;
    match certificate {
        Certificate::Unwritten(n) => *n > 0 && *n <= last,
        Certificate::Cycle { steps, cycle } => {
            are_steps_up_to(last, steps.items()) && are_up_to(last, cycle.items())
        }
    }
}

/// Whether no number of the steps is above `last`.
fn are_steps_up_to(last: u64, steps: &[CertStep]) -> bool
    ensures { IsTrue result ↔ All (IsStepUpTo last) steps.now }
{
    for step in steps {
        if !is_step_up_to(last, step) {
            return false;
        }
    }
    true
}

/// Whether no number of the step is above `last`.
fn is_step_up_to(last: u64, step: &CertStep) -> bool
    ensures { IsTrue result ↔ IsStepUpTo last step.now }
{
    step.from <= last && step.to <= last && is_reason_up_to(last, &step.reason)
}

/// Whether no number of the reason is above `last`.
pub fn is_reason_up_to(last: u64, reason: &Reason) -> bool
    ensures { IsTrue result ↔ IsReasonUpTo last reason.now }
{
    match reason {
        Reason::Base(_) => true,
        Reason::Inferred { load, path, .. } => *load <= last && are_up_to(last, path.items()),
    }
}

/// Whether none of the numbers is above `last`.
pub fn are_up_to(last: u64, numbers: &[u64]) -> bool
    ensures { IsTrue result ↔ AreUpTo last numbers.now }
{
    numbers.iter().all(|n| *n <= last)
}
