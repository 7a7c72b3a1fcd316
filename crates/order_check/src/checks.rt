//! The check of a memory order.
ghost use Rattle.std.specs.Prelude.{IsOk, OnOk, IfOk, IfErr, MatchResult};
ghost use Rattle.tso_model.specs.Axioms.{IsConsistent, IsModelOrder};
ghost use Rattle.order_check.specs.Refusals.{IsBrokenRefusal, IsOrderRefusal};
ghost use Rattle.order_check.specs.Internal.Progress.{HasPassed};

use crate::axioms::first_unmet;
use crate::faults::OrderFault;
use crate::places::places_of;
use crate::progress::Progress;
use std::alloc::{AllocError, Global};
use tso_ops::Trace;

/// Checks a list of numbers: Ok exactly where it is an order of the trace's memory model, one in which each event stands once and
/// that meets all axioms. The trace is then consistent.
///
/// Where it isn't, the first fault in the order of `OrderFault` is the answer. OutOfMemory where an allocation was refused.
pub fn check_order(
    alloc: Global,
    trace: &Trace,
    order: &[u64],
) -> Result<Result<(), OrderFault>, AllocError>
    ensures holds { IfOk result (λ said. OnOk said (IsModelOrder trace.now order.now)) }
    ensures consistent { IfOk result (λ said. OnOk said (IsConsistent trace.now)) }
    ensures accepted { IfOk result (λ said. IsModelOrder trace.now order.now → IsOk said) }
    ensures refused { IfOk result (λ said. IfErr said (IsOrderRefusal trace.now order.now)) }
{
    judge(alloc, trace, order)
}

/// Ok where the list is an order of the trace's model, else its refusal.
fn judge(alloc: Global, trace: &Trace, order: &[u64]) -> Result<Result<(), OrderFault>, AllocError>
    ensures { IfOk result (λ said. MatchResult said (λ _. IsModelOrder trace.now order.now) (IsOrderRefusal trace.now order.now)) }
{
    match places_of(alloc, trace, order)? {
        Ok(places) => {
            let progress = Progress::new(alloc, trace, places)?;
            Ok(check_axioms(trace, order, progress))
        },
        Err(fault) => Ok(Err(fault)),
    }
}

/// Goes through a list in which each event stands once, up to the first event at which an axiom isn't met.
fn check_axioms(trace: &Trace, order: &[u64], mut progress: Progress) -> Result<(), OrderFault>
    requires { HasPassed trace.now order.now 0 progress }
    ensures { MatchResult result (λ _. IsModelOrder trace.now order.now) (IsBrokenRefusal trace.now order.now) }
{
    for number in order {
        let n = *number as usize;
        progress.pass(trace, n);
        if let Some(axiom) = first_unmet(trace, &progress, n) {
            return Err(OrderFault::Broken { axiom, event: n });
        }
    }
    Ok(())
}
