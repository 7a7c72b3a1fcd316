//! Evidence that is a certificate.
ghost use Rattle.std.specs.Prelude.{◌≡◌, [], IfOk};
ghost use Rattle.decision_explanation.specs.Certificates.{certificate_of};

use std::alloc::{AllocError, Global};
use trace_decisions::copy_step;
use tso_cert::{CertStep, Certificate, NumList, StepList};
use tso_evidence::RefutationLine;

/// The certificate that these lines are: steps and then one cycle; None where they are none. OutOfMemory where an allocation
/// was refused.
pub fn certificate_of(
    alloc: Global,
    lines: &[RefutationLine],
) -> Result<Option<Certificate>, AllocError>
    ensures { IfOk result (λ certificate. certificate ≡ certificate_of [] lines.now) }
{
    let mut steps = Vec::new(alloc);
    for k in 0..lines.len() {
        match &lines[k] {
            RefutationLine::Step(step) => steps.push(copy_step(alloc, step)?)?,
            RefutationLine::Cycle(cycle) => {
                let last = k + 1 == lines.len();
                return if last {
                    cycle_of(alloc, steps, cycle)
                } else {
                    Ok(None)
                };
            },
            RefutationLine::Case { .. } | RefutationLine::Else { .. } => return Ok(None),
        }
    }
    Ok(None)
}

/// The certificate of these steps and this cycle. OutOfMemory where an allocation was refused.
fn cycle_of(
    alloc: Global,
    steps: Vec<CertStep>,
    cycle: &NumList,
) -> Result<Option<Certificate>, AllocError>
    ensures { IfOk result (λ certificate. certificate ≡ Some (Certificate.Cycle steps.items cycle.now)) }
{
    Ok(Some(Certificate::Cycle {
        steps: StepList::new(steps),
        cycle: NumList::new(cycle.items().to_vec(alloc)?),
    }))
}
