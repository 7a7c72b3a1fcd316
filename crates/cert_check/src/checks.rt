//! The check of a certificate.
ghost use Rattle.std.specs.Prelude.{◌≡◌, [], All, IsOk, OnOk, IfOk, IfErr, MatchOption, MatchResult};
ghost use Rattle.tso_ops.specs.Limits.{IsTrace};
ghost use Rattle.tso_ops.specs.Events.{IsUnwritten, event_total};
ghost use Rattle.order_paths.specs.Paths.{IsCycle};
ghost use Rattle.tso_model.specs.Axioms.{IsConsistent};
ghost use Rattle.tso_model.specs.Certs.{Holds, IsStep, StepsHold};
ghost use Rattle.cert_check.specs.Internal.Pairs.{ListsOf, ListsUpTo};
ghost use Rattle.cert_check.specs.Internal.Sides.{Follows};
ghost use Rattle.cert_check.specs.Refusals.{HasFault, HasSteps, IsCycleFault, IsCycleRefusal, IsCertRefusal, IsInRange, IsStepFault, IsStepUpTo};

use crate::faults::CertFault;
use crate::listed::{is_cycle, is_linked};
use crate::pairs::Pairs;
use crate::ranges::is_in_range;
use crate::sides::has_sides;
use std::alloc::{AllocError, Global};
use tso_cert::{CertStep, Certificate, Reason};
use tso_model::conditions::is_base_pair;
use tso_ops::Trace;

/// Checks a certificate: Ok exactly where it holds for the trace, which then has no order of its memory model.
///
/// Where it doesn't hold, EventRange is looked for over the whole certificate first; then the first step with a
/// fault decides; then the cycle. It allocates nothing, and looks up each edge of a path among the earlier steps, from the
/// last one back.
pub fn check(trace: &Trace, certificate: &Certificate) -> Result<(), CertFault>
    ensures holds { OnOk result (Holds trace.now certificate.now) }
    ensures no_order { OnOk result (IsConsistent trace.now → ⊥) }
    ensures accepted { Holds trace.now certificate.now → IsOk result }
    ensures refused { IfErr result (IsCertRefusal trace.now certificate.now) }
{
    judge(trace, certificate)
}

/// Checks a certificate as `check` does, with a table of the edges that the steps list: each step takes as long as its
/// own path has numbers, and none the longer for the steps before it.
///
/// The table has a bit for each two numbers, `init` and those of events: 8 MB where there are 8,000 events. It is made for
/// a certificate of steps and a cycle whose numbers are in range; OutOfMemory where its allocation was refused.
pub fn check_with_table(
    alloc: Global,
    trace: &Trace,
    certificate: &Certificate,
) -> Result<Result<(), CertFault>, AllocError>
    ensures holds { IfOk result (λ said. OnOk said (Holds trace.now certificate.now)) }
    ensures no_order { IfOk result (λ said. OnOk said (IsConsistent trace.now → ⊥)) }
    ensures accepted { IfOk result (λ said. Holds trace.now certificate.now → IsOk said) }
    ensures refused { IfOk result (λ said. IfErr said (IsCertRefusal trace.now certificate.now)) }
    ensures out_of_memory { IfErr result (λ _. IsInRange trace.now certificate.now × HasSteps certificate.now) }
{
    judge_with_table(alloc, trace, certificate)
}

/// Ok where the certificate holds, else its refusal.
fn judge(trace: &Trace, certificate: &Certificate) -> Result<(), CertFault>
    ensures told { MatchResult result (λ _. Holds trace.now certificate.now) (IsCertRefusal trace.now certificate.now) }
    ensures kept { IsTrace trace.now }
{
    if !is_in_range(trace, certificate) {
        return Err(CertFault::EventRange);
    }
    match certificate {
        Certificate::Unwritten(n) => judge_load(trace, *n as usize),
        Certificate::Cycle { steps, cycle } => {
            judge_cycle(trace, steps.items(), cycle.items(), Pairs::Steps)
        },
    }
}

/// The same, by a table of the pairs of steps.
fn judge_with_table(
    alloc: Global,
    trace: &Trace,
    certificate: &Certificate,
) -> Result<Result<(), CertFault>, AllocError>
    ensures told { IfOk result (λ said. MatchResult said (λ _. Holds trace.now certificate.now) (IsCertRefusal trace.now certificate.now)) }
    ensures out_of_memory { IfErr result (λ _. IsInRange trace.now certificate.now × HasSteps certificate.now) }
    ensures kept { IsTrace trace.now }
{
    if !is_in_range(trace, certificate) {
        return Ok(Err(CertFault::EventRange));
    }
    match certificate {
        Certificate::Unwritten(n) => Ok(judge_load(trace, *n as usize)),
        Certificate::Cycle { steps, cycle } => {
            let pairs = Pairs::in_table(alloc, trace.events())?;
            Ok(judge_cycle(trace, steps.items(), cycle.items(), pairs))
        },
    }
}

/// Ok where the load is unwritten.
fn judge_load(trace: &Trace, n: usize) -> Result<(), CertFault>
    ensures { MatchResult result (λ _. IsUnwritten trace.now n) (λ fault. (fault ≡ CertFault.NotUnwritten) × (IsUnwritten trace.now n → ⊥)) }
{
    if trace.is_unwritten(n) {
        Ok(())
    } else {
        Err(CertFault::NotUnwritten)
    }
}

/// Ok where the steps hold and the cycle is one of them, else the first fault of the steps or that of the cycle.
fn judge_cycle(
    trace: &Trace,
    steps: &[CertStep],
    cycle: &[u64],
    mut pairs: Pairs,
) -> Result<(), CertFault>
    requires range { All (IsStepUpTo (event_total trace.now)) steps.now }
    requires pairs { ListsUpTo (event_total trace.now) pairs [] }
    ensures { MatchResult result (λ _. StepsHold trace.now steps.now × IsCycle (λ x y. IsStep steps.now x y) cycle.now)
        (IsCycleRefusal trace.now steps.now cycle.now) }
{
    check_steps(trace, steps, &mut pairs)?;
    check_cycle(&pairs, steps, cycle)
}

/// Ok where the cycle is one of steps.
fn check_cycle(pairs: &Pairs, steps: &[CertStep], cycle: &[u64]) -> Result<(), CertFault>
    requires { ListsOf pairs.now steps.now }
    ensures { MatchResult result (λ _. IsCycle (λ x y. IsStep steps.now x y) cycle.now) (IsCycleFault steps.now cycle.now) }
{
    if cycle.is_empty() {
        Err(CertFault::EmptyCycle)
    } else if is_cycle(pairs, steps, cycle) {
        Ok(())
    } else {
        Err(CertFault::CycleUnlisted)
    }
}

/// Checks the steps up to the first with a fault, and takes note of their pairs.
fn check_steps(trace: &Trace, steps: &[CertStep], pairs: &mut Pairs) -> Result<(), CertFault>
    requires range { All (IsStepUpTo (event_total trace.now)) steps.now }
    requires pairs { ListsUpTo (event_total trace.now) pairs.old [] }
    ensures told { MatchResult result (λ _. StepsHold trace.now steps.now) (IsStepFault trace.now steps.now) }
    ensures pairs { OnOk result (ListsOf pairs.new steps.now) }
{
    for (k, step) in steps.iter().enumerate() {
        if let Some(fault) = step_fault(trace, pairs, &steps[..k], k + 1, step) {
            return Err(fault);
        }
        pairs.add(step);
    }
    Ok(())
}

/// The fault of the step with this number, after the earlier steps, if it has one.
fn step_fault(
    trace: &Trace,
    pairs: &Pairs,
    earlier: &[CertStep],
    number: usize,
    step: &CertStep,
) -> Option<CertFault>
    requires { ListsOf pairs.now earlier.now }
    ensures { MatchOption result (Follows trace.now earlier.now step.now) (HasFault trace.now earlier.now number step.now) }
{
    let from = step.from as usize;
    let to = step.to as usize;
    match &step.reason {
        Reason::Base(rule) if is_base_pair(trace, *rule, from, to) => None,
        Reason::Base(_) => Some(CertFault::BaseRefused(number)),
        Reason::Inferred { rule, load, path } => {
            let path = path.items();
            if !has_sides(trace, *rule, *load as usize, from, to, path) {
                Some(CertFault::SideRefused(number))
            } else if is_linked(pairs, earlier, path) {
                None
            } else {
                Some(CertFault::PathUnlisted(number))
            }
        },
    }
}
