//! The fault of one line, where the pairs before it are in force.
ghost use Rattle.std.specs.Prelude.{MatchOption};
ghost use Rattle.refutation_check.specs.Refusals.{HasStepFault, HasCycleFault};
ghost use Rattle.refutation_check.specs.Refutations.{StepHoldsOver};
ghost use Rattle.order_paths.specs.Paths.{IsCycle};
ghost use Rattle.refutation_check.specs.Internal.Pairs.{InForce, IsTableOf};
ghost use Rattle.refutation_check.specs.Internal.Walks.{HasLineFault, LineHolds};

use crate::faults::RefutationFault;
use crate::listed::{is_cycle, is_linked};
use crate::pairs::PairsInForce;
use cert_check::sides::has_sides;
use tso_cert::{CertStep, Reason};
use tso_evidence::RefutationLine;
use tso_model::conditions::is_base_pair;
use tso_ops::Trace;

/// The fault of the line with this number, if it has one.
pub(crate) fn line_fault(
    trace: &Trace,
    pairs: &PairsInForce,
    number: usize,
    line: &RefutationLine,
) -> Option<RefutationFault>
    requires { IsTableOf pairs.now.table pairs.now.pairs.items }
    ensures { MatchOption result (LineHolds trace.now pairs.now.pairs.items line.now) (HasLineFault trace.now pairs.now.pairs.items number line.now) }
{
    match line {
        RefutationLine::Step(step) => step_fault(trace, pairs, number, step),
        RefutationLine::Case { first, second } => {
            let (u, v) = (*first as usize, *second as usize);
            if u != v && trace.is_event(u) && trace.is_event(v) {
                None
            } else {
                Some(RefutationFault::CaseRefused(number))
            }
        },
        RefutationLine::Else { .. } => None,
        RefutationLine::Cycle(cycle) => cycle_fault(pairs, number, cycle.items()),
    }
}

/// The fault of the step on the line with this number, if it has one.
fn step_fault(
    trace: &Trace,
    pairs: &PairsInForce,
    number: usize,
    step: &CertStep,
) -> Option<RefutationFault>
    requires { IsTableOf pairs.now.table pairs.now.pairs.items }
    ensures { MatchOption result (StepHoldsOver trace.now (InForce pairs.now.pairs.items) step.now)
        (HasStepFault trace.now (InForce pairs.now.pairs.items) number step.now) }
{
    let from = step.from as usize;
    let to = step.to as usize;
    match &step.reason {
        Reason::Base(rule) if is_base_pair(trace, *rule, from, to) => None,
        Reason::Base(_) => Some(RefutationFault::BaseRefused(number)),
        Reason::Inferred { rule, load, path } => {
            let path = path.items();
            if !has_sides(trace, *rule, *load as usize, from, to, path) {
                Some(RefutationFault::SideRefused(number))
            } else if is_linked(pairs, path) {
                None
            } else {
                Some(RefutationFault::PathUnlisted(number))
            }
        },
    }
}

/// The fault of the cycle on the line with this number, if it has one.
fn cycle_fault(pairs: &PairsInForce, number: usize, cycle: &[u64]) -> Option<RefutationFault>
    requires { IsTableOf pairs.now.table pairs.now.pairs.items }
    ensures { MatchOption result (IsCycle (InForce pairs.now.pairs.items) cycle.now) (HasCycleFault (InForce pairs.now.pairs.items) number cycle.now) }
{
    if cycle.is_empty() {
        Some(RefutationFault::EmptyCycle(number))
    } else if is_cycle(pairs, cycle) {
        None
    } else {
        Some(RefutationFault::CycleUnlisted(number))
    }
}
