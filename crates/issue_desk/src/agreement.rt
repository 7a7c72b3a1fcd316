ghost use Rattle.std.specs.Prelude.{◌≡◌, ◌<◌, Decides, Some, map, slice_get};
ghost use Rattle.issue_desk.specs.Finishing.{Agrees, ArePassesOf, AnswersCompare, IsFirstTorn};
ghost use Rattle.tso_ops.specs.Values.{list_count, op_of};
ghost use Rattle.unit_core.specs.Machine.{outcomes_of};

use crate::faults::RunFault;
use crate::passes::Pass;
use tso_ops::{Op, Outcome, Program};
use unit_core::Step;

/// Whether this outcome stands at index `k`.
fn stands_at(outcomes: &[Outcome], k: usize, outcome: Outcome) -> bool
    ensures { Decides result (slice_get outcomes.now k ≡ Some outcome) }
{
    match outcomes.get(k) {
        Some(found) => *found == outcome,
        None => false,
    }
}

/// Whether the outcome is of the operation.
fn is_of_op(outcome: Outcome, op: Op) -> bool
    ensures { Decides result (op_of outcome ≡ op) }
{
    outcome.op() == op
}

/// Whether the steps answered processor `p` these outcomes, and no others.
fn was_answered(steps: &[Step], p: usize, outcomes: &[Outcome]) -> bool
    ensures { Decides result (outcomes.now ≡ outcomes_of p steps.now) }
{
    let mut answered = 0;
    for step in steps {
        if let Some(outcome) = step.outcome_of(p) {
            if !stands_at(outcomes, answered, outcome) {
                return false;
            }
            answered += 1;
        }
    }
    answered == outcomes.len()
}

/// Whether these are outcomes of the operations, all, in order.
fn are_of_ops(outcomes: &[Outcome], ops: &[Op]) -> bool
    ensures { Decides result (map op_of outcomes.now ≡ ops.now) }
{
    if outcomes.len() != ops.len() {
        return false;
    }
    for k in 0..ops.len() {
        if !is_of_op(outcomes[k], ops[k]) {
            return false;
        }
    }
    true
}

/// Whether the pass, the steps of its processor and its operations in the program agree.
fn agrees(pass: &Pass, steps: &[Step], program: &Program) -> bool
    requires { pass.now.processor < list_count program.now }
    ensures { Decides result (Agrees steps.now program.now pass.now) }
{
    let p = pass.processor();
    was_answered(steps, p, pass.outcomes()) && are_of_ops(pass.outcomes(), program.ops(p))
}

/// The least processor whose pass doesn't agree with the steps and the program, if there is one.
fn first_torn(passes: &[Pass], steps: &[Step], program: &Program) -> Option<usize>
    requires { ArePassesOf program.now passes.now }
    ensures { IsFirstTorn steps.now program.now passes.now result }
{
    for p in 0..passes.len() {
        if !agrees(&passes[p], steps, program) {
            return Some(p);
        }
    }
    None
}

/// Compares the desk's program and the steps of its unit with the passes and the program handed in: Torn with the least
/// processor whose pass, steps and operations don't agree, or else OtherProgram where the programs differ.
pub(crate) fn compare(
    own: &Program,
    steps: &[Step],
    program: &Program,
    passes: &[Pass],
) -> Result<(), RunFault>
    requires { ArePassesOf program.now passes.now }
    ensures { AnswersCompare own.now steps.now program.now passes.now result }
{
    match first_torn(passes, steps, program) {
        Some(p) => Err(RunFault::Torn { p }),
        None if !own.is_same(program) => Err(RunFault::OtherProgram),
        None => Ok(()),
    }
}
