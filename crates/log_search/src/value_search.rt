//! The search by values: sources of loads by elimination, where several stores wrote one value.

use crate::building::{Scope, build};
use crate::candidates::Candidates;
use crate::derivation::{Derivation, Work};
use crate::eliminations::{Elimination, Pace};
use crate::shown_values::{ValueViolation, violation_of};
use crate::surveys::{Addresses, Survey};
use crate::unknowns::count_unknown;
use log_selections::KnownLog;
use progress_meters::Meter;
use search_memory::Memory;
use std::alloc::Global;
use tso_ops::OutOfMemory;

/// So few nodes are always looked at one after the other.
const FEW_NODES: usize = 10_000;

/// What a search by values found.
#[derive(Debug, Drop)]
pub enum ValueFound {
    /// The log should have no order of its memory model, and why.
    Violation(ValueViolation),
    /// Nothing.
    End,
    /// Nothing, since as much work was done as is allowed.
    BudgetEnd,
}

/// A search in a log for what its values tell, also where several stores wrote one.
#[derive(Drop)]
pub struct ValueSearch<'a> {
    known: &'a KnownLog,
    survey: Survey,
    /// The addresses that are looked at next.
    addresses: Addresses,
    work: Work,
    pace: Pace,
    unknown: usize,
    parts: usize,
}

impl<'a> ValueSearch<'a> {
    /// Begins a search in a log, which may do so many updates of rows for each load and store, and as many as for 50,000 in any
    /// log. OutOfMemory where an allocation was refused.
    pub fn new(
        alloc: Global,
        known: &'a KnownLog,
        effort: usize,
    ) -> Result<ValueSearch<'a>, OutOfMemory> {
        let memory = Memory::new(alloc);
        let mut survey = Survey::new(&memory, known);
        survey.keep_open(known);
        let addresses = survey.addresses_from(0);
        let search = ValueSearch {
            known,
            survey,
            addresses,
            // Under TSO rows have two chains for each processor.
            work: Work::new(
                effort,
                known.sources().len(),
                known.log().lists.len().saturating_mul(2),
            ),
            pace: Pace::Many,
            unknown: 0,
            parts: 0,
        };
        memory.whole(search)
    }

    /// The next call of `run` searches the whole log anew, and only where nothing waits: slower, but then no step of its evidence
    /// gives a load a source that it can't have read. Else that may be, seldom, in a log of over 10,000 events.
    pub fn begin_again(&mut self) {
        self.addresses = self.survey.addresses_from(0);
        self.pace = Pace::One;
        self.unknown = 0;
        self.parts = 0;
    }

    /// How much work was done so far, in updates of rows.
    pub fn updates(&self) -> usize {
        self.work.updates()
    }

    /// Into how many parts the addresses were divided so far: violations that need addresses of two parts aren't found. Under
    /// TSO there is one part.
    pub fn parts(&self) -> usize {
        self.parts
    }

    /// How many loads of the log that can have read several by their values have sources that aren't known after the search. Of
    /// loads that follow one another and read one value only the first and the last are looked at: those between have the source
    /// that these two have, if that is one.
    pub fn unknown(&self) -> usize {
        self.unknown
    }

    /// Searches the whole log, up to a violation. OutOfMemory where an allocation was refused. The meter hears of each operation
    /// of the log once, when it is passed: of all before `End`.
    pub fn run<M: Meter>(&mut self, alloc: Global, meter: &M) -> Result<ValueFound, OutOfMemory> {
        let memory = Memory::new(alloc);
        let found = self.find(&memory, meter);
        memory.whole(found)
    }

    fn find<M: Meter>(&mut self, memory: &Memory, meter: &M) -> ValueFound {
        meter.advance(self.survey.passed_over(self.known) as u64);
        for _ in 0..usize::MAX {
            let found = self.find_in_part(memory, meter);
            if !matches!(found, ValueFound::End) || self.addresses.to >= self.survey.count() {
                return found;
            }
            self.addresses = self.survey.addresses_from(self.addresses.to);
        }
        ValueFound::End
    }

    /// Searches among the addresses that are looked at now.
    fn find_in_part<M: Meter>(&mut self, memory: &Memory, meter: &M) -> ValueFound {
        self.parts = self.parts.saturating_add(1);
        let scope = Scope {
            known: self.known,
            survey: &self.survey,
            addresses: self.addresses,
            is_open: true,
        };
        let graph = build(memory, scope);
        let candidates = Candidates::new(memory, self.known, &graph.nodes);
        let pace = if graph.nodes.len() <= FEW_NODES {
            Pace::One
        } else {
            self.pace
        };
        let derivation = Derivation::new(memory, graph, self.work);
        let mut elimination = Elimination::new(memory, derivation, candidates, pace);
        elimination.run(memory, meter);
        self.work = elimination.derivation.work;
        let unknown = count_unknown(
            scope,
            &elimination.derivation.graph,
            &elimination.candidates,
        );
        self.unknown = self.unknown.saturating_add(unknown);
        match elimination.derivation.closing {
            Some(closing) => {
                ValueFound::Violation(violation_of(memory, self.known, &elimination, closing))
            }
            None if elimination.derivation.is_stopped(memory) => ValueFound::BudgetEnd,
            None => ValueFound::End,
        }
    }
}
