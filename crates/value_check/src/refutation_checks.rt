//! The check of a refutation.
ghost use Rattle.std.specs.Prelude.{IsOk, IfOk, IfErr, OnOk, MatchResult, None, Some};
ghost use Rattle.log_text.specs.LogValues.{log_operations, log_value};
ghost use Rattle.program_chains.specs.LogEvents.{log_trace};
ghost use Rattle.tso_model.specs.Axioms.{IsConsistent};
ghost use Rattle.value_evidence.specs.Refutations.{ValueRefutationHolds};
ghost use Rattle.value_check.specs.RefutationRefusals.{IsValueRefutationRefusal};
ghost use Rattle.value_check.specs.Internal.InForce.{start};
ghost use Rattle.value_check.specs.Internal.Walks.{Walks};

use crate::in_force::InForce;
use crate::refusals::ValueRefutationFault;
use crate::structure::structure_fault;
use log_text::Log;
use std::alloc::Global;
use tso_ops::OutOfMemory;
use value_evidence::ValueRefutationLine;

/// Checks a refutation by values: the answer is Ok exactly where the lines are one that holds of the log, which then has no order of its
/// memory model.
///
/// Where it doesn't hold, the structure of the lines is looked at first; then the first line with a fault decides. OutOfMemory where an
/// allocation was refused, or where the log has 2^32 loads and stores or more. Each line `Else` makes the log's tables anew.
pub fn check_value_refutation(
    alloc: Global,
    log: &Log,
    lines: &[ValueRefutationLine],
) -> Result<Result<(), ValueRefutationFault>, OutOfMemory>
    ensures holds { IfOk result (λ said. OnOk said (ValueRefutationHolds (log_operations (log_value log.now)) lines.now)) }
    ensures no_order { IfOk result (λ said. OnOk said (IsConsistent (log_operations (log_value log.now)) → ⊥)) }
    ensures accepted { IfOk result (λ said. ValueRefutationHolds (log_operations (log_value log.now)) lines.now → IsOk said) }
    ensures refused { IfOk result (λ said. IfErr said (IsValueRefutationRefusal (log_operations (log_value log.now)) lines.now)) }
{
    judge(alloc, log, lines)
}

/// Ok where the lines are a refutation that holds, else their refusal.
fn judge(
    alloc: Global,
    log: &Log,
    lines: &[ValueRefutationLine],
) -> Result<Result<(), ValueRefutationFault>, OutOfMemory>
    ensures { IfOk result (λ said. MatchResult said (λ _. ValueRefutationHolds (log_trace log.now) lines.now)
        (IsValueRefutationRefusal (log_trace log.now) lines.now)) }
{
    if let Some(fault) = structure_fault(lines) {
        return Ok(Err(fault));
    }
    check_lines(alloc, log, lines)
}

/// Ok where no line has a fault, else the fault of the first that has one.
fn check_lines(
    alloc: Global,
    log: &Log,
    lines: &[ValueRefutationLine],
) -> Result<Result<(), ValueRefutationFault>, OutOfMemory>
    ensures { IfOk result (λ said. MatchResult said (λ _. Walks (log_trace log.now) start 1 lines.now None)
        (λ fault. Walks (log_trace log.now) start 1 lines.now (Some fault))) }
{
    let mut state = InForce::new(alloc, log)?;
    for (k, line) in lines.iter().enumerate() {
        if let Some(fault) = state.line_fault(alloc, k + 1, *line)? {
            return Ok(Err(fault));
        }
        state.follow(alloc, log, *line)?;
    }
    Ok(Ok(()))
}
