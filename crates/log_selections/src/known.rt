ghost use Rattle.std.specs.Prelude.{◌≡◌, ℕ, [], IfOk, IfSome, true, nat_eq};
ghost use Rattle.std.specs.List.{IsDistinct};
ghost use Rattle.tso_ops.specs.Events.{IsUnwritten};
ghost use Rattle.log_text.specs.LogValues.{log_operations, log_value};
ghost use Rattle.log_selections.specs.Cuts.{IsCut};
ghost use Rattle.log_selections.specs.Sources.{IsAmbiguousCount};

use crate::accesses::number_accesses;
use crate::keeping::keep_lists;
use crate::naming::{Named, name_kept};
use crate::shown::Kept;
use crate::source_checks::keeps_sources;
use crate::sources::{Sources, find_sources};
use log_text::Log;
use std::alloc::Global;
use std::marker::Model;
use tso_ops::{OutOfMemory, Trace, ValueFault};

/// A log, with the sources of its loads that its values tell.
#[derive(Drop)]
pub struct KnownLog {
    log: Log,
    numbers: Vec<Vec<usize>>,
    sources: Sources,
}

impl Model for KnownLog {
    ghost use Rattle.tso_ops.specs.Values.{rows};
    ghost use Rattle.log_text.specs.LogValues.{NumberedLog, log_value};
    ghost use Rattle.log_selections.specs.Internal.Known.{IsKnownLog};

    ghost Value = { NumberedLog };

    ghost view = { λ k. log_value k.log };

    ghost invariant = { λ k. IsKnownLog k.log (rows k.numbers.items) k.sources.numbers.items k.sources.ambiguous k.sources.unwritten.items };
}

impl KnownLog {
    /// Finds the sources of the loads. OutOfMemory where an allocation was refused.
    pub fn new(alloc: Global, log: Log) -> Result<KnownLog, OutOfMemory>
        ensures { IfOk result (λ k. k ≡ log_value log) }
    {
        let numbered = number_accesses(alloc, &log.lists)?;
        let sources = find_sources(alloc, &log.first, &numbered.accesses)?;
        Ok(KnownLog {
            log,
            numbers: numbered.numbers,
            sources,
        })
    }

    /// The log.
    pub fn log(&self) -> &Log
        ensures { log_value result.now ≡ self.now }
    {
        &self.log
    }

    /// The number of the first event of each operation of each processor, from 1. A barrier has that of the next operation.
    pub fn numbers(&self) -> &[Vec<usize>] {
        &self.numbers
    }

    /// By the numbers of loads the number of the one event that can have written what the load read, or 0 for the first value;
    /// None where several can have written it, or none, and for other numbers.
    pub fn sources(&self) -> &[Option<usize>] {
        &self.sources.numbers
    }

    /// How many loads have a value that several may have written, those of swaps counted: two stores or more, or one and whoever
    /// wrote the first value.
    pub fn ambiguous_loads(&self) -> usize
        ensures { IsAmbiguousCount self.now result }
    {
        self.sources.ambiguous
    }

    /// The numbers of the loads that read what nothing wrote, those of swaps counted, in ascending order.
    pub fn unwritten_loads(&self) -> &[usize]
        ensures { result.now ≡ [] → (l : ℕ) → IsUnwritten (log_operations self.now) l → ⊥ }
    {
        &self.sources.unwritten
    }

    /// The trace of these operations of each processor, with other addresses and values: None where they are no operations of the
    /// log, their loads' sources aren't among them, or they are past the limits of traces. Processors of which nothing is kept are
    /// left out. OutOfMemory where an allocation was refused.
    pub fn trace_of(&self, alloc: Global, kept: &[Vec<Kept>]) -> Result<Option<Trace>, OutOfMemory>
        ensures { IfOk result (λ found. IfSome found (IsCut (log_operations self.now))) }
    {
        match name_kept(
            alloc,
            &self.log.lists,
            &self.numbers,
            &self.sources.numbers,
            kept,
        )? {
            Some(named) => self.keep(alloc, &named),
            None => Ok(None),
        }
    }

    /// The trace of what was named, if it is a part of the log and within the limits of traces.
    fn keep(&self, alloc: Global, named: &Named) -> Result<Option<Trace>, OutOfMemory>
        ensures { IfOk result (λ found. IfSome found (IsCut (log_operations self.now))) }
    {
        let mut origins = Vec::new(alloc);
        if !is_distinct(&named.addresses) {
            return Ok(None);
        }
        let Some(lists) = keep_lists(
            alloc,
            &named.addresses,
            &self.log.lists,
            &self.numbers,
            &named.outcomes,
            &mut origins,
        )?
        else {
            return Ok(None);
        };
        let trace = match Trace::with_first(alloc, self.log.order, Vec::new(alloc), lists) {
            Ok(trace) => trace,
            Err(refused) if refused.why == ValueFault::OutOfMemory => return Err(OutOfMemory),
            Err(_) => return Ok(None),
        };
        if !keeps_sources(&trace, &origins, &self.sources.numbers) {
            return Ok(None);
        }
        Ok(Some(trace))
    }
}

/// Whether no address stands twice.
fn is_distinct(addresses: &[u64]) -> bool
    ensures { result ≡ true → IsDistinct nat_eq addresses.now }
{
    for k in 0..addresses.len() {
        if addresses[..k].contains(&addresses[k]) {
            return false;
        }
    }
    true
}
