//! Certificates of cycles, from steps that are written as constants.

use std::alloc::{AllocError, Global};
use tso_cert::{BaseRule, CertStep, Certificate, InferredRule, NumList, Reason, StepList};

/// A step of a certificate: the two ends and the rule; for an inferred rule the load and the path too.
#[derive(Clone, Copy)]
pub enum Listed {
    /// By a base rule.
    Base(u64, u64, BaseRule),
    /// By an inferred rule.
    Inferred(u64, u64, InferredRule, u64, &'static [u64]),
}

/// The step. The error is that memory ran out.
pub fn step_of(alloc: Global, listed: Listed) -> Result<CertStep, AllocError> {
    match listed {
        Listed::Base(from, to, rule) => Ok(CertStep {
            from,
            to,
            reason: Reason::Base(rule),
        }),
        Listed::Inferred(from, to, rule, load, path) => {
            let path = NumList::new(path.to_vec(alloc)?);
            Ok(CertStep {
                from,
                to,
                reason: Reason::Inferred { rule, load, path },
            })
        }
    }
}

/// The certificate of these steps and this cycle. The error is that memory ran out.
pub fn cycle_of(
    alloc: Global,
    steps: Vec<CertStep>,
    cycle: &[u64],
) -> Result<Certificate, AllocError> {
    Ok(Certificate::Cycle {
        steps: StepList::new(steps),
        cycle: NumList::new(cycle.to_vec(alloc)?),
    })
}
