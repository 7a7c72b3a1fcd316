//! The check of a memory order.
ghost use Rattle.std.specs.Prelude.{ℕ, IsOk, OnOk, IfOk, IfErr, MatchResult};
ghost use Rattle.tso_ops.specs.Values.{TraceValue};
ghost use Rattle.tso_model.specs.Axioms.{IsConsistent, IsModelOrder};
ghost use Rattle.order_check.specs.Refusals.{IsBrokenRefusal, IsOrderRefusal};
ghost use Rattle.log_text.specs.LogValues.{log_operations, log_value};
ghost use Rattle.log_order_check.specs.Internal.Tables.{AreTables};

use crate::places::places_of;
use crate::progress::{Progress, first_unmet};
use crate::tables::Tables;
use log_text::Log;
use order_check::OrderFault;
use program_chains::log_events;
use std::alloc::Global;
use tso_ops::OutOfMemory;

/// Checks a list of event numbers: Ok exactly where it is an order of the log's memory model, one in which each event stands once
/// and that meets all axioms. The log is then consistent.
///
/// Where it isn't, the first fault in the order of `OrderFault` is the answer. OutOfMemory where an allocation was refused.
pub fn check_log_order(
    alloc: Global,
    log: &Log,
    order: &[usize],
) -> Result<Result<(), OrderFault>, OutOfMemory>
    ensures holds { IfOk result (λ said. OnOk said (IsModelOrder (log_operations (log_value log.now)) order.now)) }
    ensures consistent { IfOk result (λ said. OnOk said (IsConsistent (log_operations (log_value log.now)))) }
    ensures accepted { IfOk result (λ said. IsModelOrder (log_operations (log_value log.now)) order.now → IsOk said) }
    ensures refused { IfOk result (λ said. IfErr said (IsOrderRefusal (log_operations (log_value log.now)) order.now)) }
{
    judge(alloc, log, order)
}

/// Ok where the list is an order of the log's model, else its refusal.
fn judge(alloc: Global, log: &Log, order: &[usize]) -> Result<Result<(), OrderFault>, OutOfMemory>
    ensures { IfOk result (λ said. MatchResult said (λ _. IsModelOrder (log_operations (log_value log.now)) order.now)
        (IsOrderRefusal (log_operations (log_value log.now)) order.now)) }
{
    let events = log_events(alloc, log)?;
    match places_of(alloc, &events, order)? {
        Ok(places) => {
            let tables = Tables::new(alloc, log, events, places)?;
            check_axioms(alloc, &tables, order)
        },
        Err(fault) => Ok(Err(fault)),
    }
}

/// Goes through a list in which each event stands once, up to the first event at which an axiom isn't met.
fn check_axioms(
    alloc: Global,
    tables: &Tables,
    order: &[usize],
) -> Result<Result<(), OrderFault>, OutOfMemory>
    ensures { IfOk result (λ said. (t : TraceValue) → AreTables t order.now tables.now →
        MatchResult said (λ _. IsModelOrder t order.now) (IsBrokenRefusal t order.now)) }
{
    let mut progress = Progress::new(alloc);
    for number in order {
        let n = *number;
        progress.pass(tables, n)?;
        if let Some(axiom) = first_unmet(tables, &progress, order, n) {
            return Ok(Err(OrderFault::Broken { axiom, event: n }));
        }
    }
    Ok(Ok(()))
}
