//! The decision on a log.
ghost use Rattle.std.specs.Prelude.{IfOk, IfSome};
ghost use Rattle.log_text.specs.LogValues.{log_operations, log_value};
ghost use Rattle.value_texts.specs.Printed.{log_evidence_value};
ghost use Rattle.log_evidence.specs.LogChecks.{LogEvidenceHolds};
ghost use Rattle.log_decisions.specs.LogDecisions.{IsLogDecision};

use crate::orders::order_of_stores;
use log_order_check::check_log_order;
use log_reports::Renumbering;
use log_search::{DecisionFound, decide};
use log_selections::KnownLog;
use log_text::Log;
use std::alloc::Global;
use tso_ops::OutOfMemory;
use value_check::check_value_refutation;
use value_evidence::{LogEvidence, ValueRefutationLine};

/// What was decided of a log whose idle swaps are read.
#[derive(Debug, Drop)]
pub enum LogDecision {
    /// This evidence holds: an order, or a refutation, which shows that there is none.
    Decided(LogEvidence),
    /// Neither was found by so many cases.
    Undecided(usize),
}

/// Decides on a log whose idle swaps are read, by what is left of it without loads that only repeat others. What is answered was
/// accepted by the checker of orders or by that of refutations. OutOfMemory where an allocation was refused, or for a refutation where
/// the log has 2^32 loads and stores or more.
pub(crate) fn decide_on(
    alloc: Global,
    read: &Log,
    left: &KnownLog,
    effort: usize,
) -> Result<LogDecision, OutOfMemory>
    ensures { IfOk result (IsLogDecision effort (log_operations (log_value read.now))) }
{
    let decided = match decide(alloc, left, effort as u64)? {
        DecisionFound::Stores(stores) => by_order(alloc, read, left.log(), &stores)?,
        DecisionFound::Refuted(lines) => by_refutation(alloc, read, left.log(), &lines)?,
        DecisionFound::Undecided => None,
    };
    match decided {
        Some(evidence) => Ok(LogDecision::Decided(evidence)),
        None => Ok(LogDecision::Undecided(effort)),
    }
}

/// An order of all events by one of the stores that are left, if the loads fit in. OutOfMemory where an allocation was refused.
fn by_order(
    alloc: Global,
    read: &Log,
    left: &Log,
    stores: &[usize],
) -> Result<Option<LogEvidence>, OutOfMemory>
    ensures { IfOk result (λ found. IfSome found (λ e. LogEvidenceHolds (log_operations (log_value read.now)) (log_evidence_value e))) }
{
    let renumbering = Renumbering::new(alloc, left, read)?;
    let mut whole = Vec::with_capacity(alloc, stores.len())?;
    for store in stores {
        whole.push(renumbering.number(*store))?;
    }
    let order = order_of_stores(alloc, read, &whole)?;
    match check_log_order(alloc, read, &order)? {
        Ok(()) => Ok(Some(LogEvidence::Order(order))),
        Err(_) => Ok(None),
    }
}

/// A refutation of what is left as one of the log, if it holds of that. OutOfMemory where an allocation was refused, or where the log has
/// 2^32 loads and stores or more.
fn by_refutation(
    alloc: Global,
    read: &Log,
    left: &Log,
    lines: &[ValueRefutationLine],
) -> Result<Option<LogEvidence>, OutOfMemory>
    ensures { IfOk result (λ found. IfSome found (λ e. LogEvidenceHolds (log_operations (log_value read.now)) (log_evidence_value e))) }
{
    let renumbering = Renumbering::new(alloc, left, read)?;
    let mut whole = Vec::with_capacity(alloc, lines.len())?;
    for line in lines {
        whole.push(renumbering.line(*line))?;
    }
    match check_value_refutation(alloc, read, &whole)? {
        Ok(()) => Ok(Some(LogEvidence::Refutation(whole))),
        Err(_) => Ok(None),
    }
}
