//! The events of a log, and which of them come before which.
ghost use Rattle.std.specs.Prelude.{◌↔◌, ℕ, suc, IfOk};
ghost use Rattle.order_paths.specs.Paths.{Reaches};
ghost use Rattle.chain_reach.specs.Leading.{Leads, LeadsToMore};
ghost use Rattle.program_chains.specs.Chains.{AreProgramChains};
ghost use Rattle.program_chains.specs.LogEvents.{AreEventsOf, log_trace};
ghost use Rattle.value_evidence.specs.Candidates.{IsProgramPair};

use crate::chains::chains_of;
use crate::events::{LogEvent, log_events};
use crate::reaches::reach_of;
use chain_reach::Reach;
use log_text::Log;
use std::alloc::Global;
use tso_ops::OutOfMemory;

/// How many numbers a `Reach` can have, at the least.
const MOST_EVENTS: usize = 0x1_0000_0000;

/// The events of a log, and which of them come before which by program order alone.
#[derive(Debug, Drop)]
pub struct ProgramOrder {
    /// The events: event number n, from 1, is item n - 1.
    pub events: Vec<LogEvent>,
    /// What leads to what, and the chains of the events. Its numbers count from 0: number n is item n of `events`.
    pub reach: Reach,
}

impl ProgramOrder {
    /// The events of a log, in chains, and what each leads to by program order alone; none has grown. OutOfMemory where an
    /// allocation was refused, or where there are 2^32 events or more.
    pub fn of_log(alloc: Global, log: &Log) -> Result<ProgramOrder, OutOfMemory>
        ensures events { IfOk result (λ p. AreEventsOf (log_trace log.now) p.events.items) }
        ensures chains { IfOk result (λ p. AreProgramChains (log_trace log.now) p.reach.chains) }
        ensures leads { IfOk result (λ p. (x y : ℕ) → Leads p.reach x y ↔ Reaches (IsProgramPair (log_trace log.now)) (suc x) (suc y)) }
        ensures settled { IfOk result (λ p. (x : ℕ) → LeadsToMore p.reach x → ⊥) }
    {
        let events = log_events(alloc, log)?;
        if events.len() >= MOST_EVENTS {
            return Err(OutOfMemory);
        }
        let chains = chains_of(alloc, log.order, &events)?;
        let reach = reach_of(alloc, log.order, &events, chains)?;
        Ok(ProgramOrder { events, reach })
    }
}
