//! The check of evidence.
ghost use Rattle.std.specs.Prelude.{◌≡◌, IfOk, IfErr, OnOk};
ghost use Rattle.log_text.specs.LogValues.{log_operations, log_value};
ghost use Rattle.tso_model.specs.Axioms.{IsConsistent};
ghost use Rattle.value_evidence.specs.Evidence.{EvidenceHolds};
ghost use Rattle.value_check.specs.Refusals.{IsRefusalOfValues};

use crate::known::Known;
use crate::refusals::ValueRefusal;
use log_text::Log;
use std::alloc::Global;
use tso_ops::OutOfMemory;
use value_evidence::ValueEvidence;

/// Checks evidence that a log has no order of its memory model: the answer is Ok exactly where it holds, and then the log has none.
///
/// The first step that doesn't follow from those before it refuses the evidence, else its end. OutOfMemory where an allocation was
/// refused, or where the log has 2^32 loads and stores or more.
pub fn check_values(
    alloc: Global,
    log: &Log,
    evidence: &ValueEvidence,
) -> Result<Result<(), ValueRefusal>, OutOfMemory>
    ensures holds { IfOk result (λ said. OnOk said (EvidenceHolds (log_operations (log_value log.now)) evidence.now)) }
    ensures refused { IfOk result (λ said. IfErr said (IsRefusalOfValues (log_operations (log_value log.now)) evidence.now)) }
    ensures accepted { IfOk result (λ said. EvidenceHolds (log_operations (log_value log.now)) evidence.now → said ≡ Ok tt) }
    ensures no_order { IfOk result (λ said. OnOk said (IsConsistent (log_operations (log_value log.now)) → ⊥)) }
{
    let mut known = Known::new(alloc, log)?;
    for (k, step) in evidence.steps.iter().enumerate() {
        if !known.holds(alloc, *step)? {
            return Ok(Err(ValueRefusal::StepRefused(k + 1)));
        }
        known.follow(*step);
    }
    if known.ends(alloc, evidence.end, &[])? {
        Ok(Ok(()))
    } else {
        Ok(Err(ValueRefusal::EndRefused))
    }
}
