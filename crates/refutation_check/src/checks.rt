//! The check of a refutation.
ghost use Rattle.std.specs.Prelude.{◌≡◌, ◌⊎◌, ◌+◌, [], IsOk, OnOk, IfOk, IfErr, MatchResult, None, Some};
ghost use Rattle.tso_ops.specs.Limits.{IsTrace};
ghost use Rattle.tso_ops.specs.Events.{event_total};
ghost use Rattle.tso_evidence.specs.Refutations.{IsRefutation};
ghost use Rattle.tso_model.specs.Axioms.{IsConsistent};
ghost use Rattle.refutation_check.specs.Refutations.{RefutationHolds};
ghost use Rattle.refutation_check.specs.Refusals.{AreLinesInRange, HasCase, IsRefutationRefusal};
ghost use Rattle.refutation_check.specs.Internal.Pairs.{IsKept};
ghost use Rattle.refutation_check.specs.Internal.Walks.{Walks};

use crate::faults::RefutationFault;
use crate::line_faults::line_fault;
use crate::pairs::PairsInForce;
use crate::ranges::are_lines_up_to;
use crate::structure::structure_fault;
use std::alloc::{AllocError, Global};
use tso_evidence::RefutationLine;
use tso_ops::Trace;

/// Checks a refutation: Ok exactly where the lines are one that holds for the trace, which then has no order of its memory
/// model.
///
/// Where it doesn't hold, the structure of the lines is looked at first; then EventRange is looked for over all lines; then
/// the first line with a fault decides. OutOfMemory where an allocation was refused. Each line takes as long as it has
/// numbers, and none the longer for the lines before it or for the cases that are open there.
///
/// The pairs in force are kept in a table, with a bit for each two numbers, `init` and those of events: 8 MB where there
/// are 8,000 events. It is made for lines whose structure is right and whose numbers are in range; before that, memory is
/// taken for open cases alone.
pub fn check_refutation(
    alloc: Global,
    trace: &Trace,
    lines: &[RefutationLine],
) -> Result<Result<(), RefutationFault>, AllocError>
    ensures holds { IfOk result (λ said. OnOk said (RefutationHolds trace.now lines.now)) }
    ensures no_order { IfOk result (λ said. OnOk said (IsConsistent trace.now → ⊥)) }
    ensures accepted { IfOk result (λ said. RefutationHolds trace.now lines.now → IsOk said) }
    ensures refused { IfOk result (λ said. IfErr said (IsRefutationRefusal trace.now lines.now)) }
    ensures out_of_memory { IfErr result (λ _. HasCase lines.now ⊎ (IsRefutation lines.now × AreLinesInRange trace.now lines.now)) }
{
    judge(alloc, trace, lines)
}

/// Ok where the lines are a refutation that holds, else their refusal.
fn judge(
    alloc: Global,
    trace: &Trace,
    lines: &[RefutationLine],
) -> Result<Result<(), RefutationFault>, AllocError>
    ensures told { IfOk result (λ said. MatchResult said (λ _. RefutationHolds trace.now lines.now) (IsRefutationRefusal trace.now lines.now)) }
    ensures out_of_memory { IfErr result (λ _. HasCase lines.now ⊎ (IsRefutation lines.now × AreLinesInRange trace.now lines.now)) }
    ensures kept { IsTrace trace.now }
{
    let last = trace.events();
    if let Some(fault) = structure_fault(alloc, lines)? {
        return Ok(Err(fault));
    }
    if !are_lines_up_to(last as u64, lines) {
        return Ok(Err(RefutationFault::EventRange));
    }
    let pairs = PairsInForce::new(alloc, last)?;
    check_lines(trace, lines, pairs)
}

/// Ok where no line has a fault, else the fault of the first that has one.
fn check_lines(
    trace: &Trace,
    lines: &[RefutationLine],
    mut pairs: PairsInForce,
) -> Result<Result<(), RefutationFault>, AllocError>
    requires range { AreLinesInRange trace.now lines.now }
    requires kept { IsKept pairs }
    requires nodes { pairs.table.nodes ≡ event_total trace.now + 1 }
    requires pairs { pairs.pairs.items ≡ [] }
    requires cases { pairs.cases.items ≡ [] }
    ensures { IfOk result (λ said. MatchResult said (λ _. Walks trace.now [] [] 1 lines.now None) (λ fault. Walks trace.now [] [] 1 lines.now (Some fault))) }
{
    for (k, line) in lines.iter().enumerate() {
        if let Some(fault) = line_fault(trace, &pairs, k + 1, line) {
            return Ok(Err(fault));
        }
        pairs.follow(line)?;
    }
    Ok(Ok(()))
}
