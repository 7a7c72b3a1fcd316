//! The search itself.

use crate::building::{Scope, build};
use crate::derivation::{Derivation, Work};
use crate::explanations::explain;
use crate::graphs::Graph;
use crate::progress::Progress;
use crate::roots::Roots;
use crate::selections::select;
use crate::surveys::{Addresses, Survey};
use log_selections::{Kept, KnownLog};
use progress_meters::Meter;
use search_memory::Memory;
use std::alloc::Global;
use tso_ops::OutOfMemory;

/// What a search found.
#[derive(Debug, Drop)]
pub enum Found {
    /// Operations that should have no order of the memory model.
    Proposal(Vec<Vec<Kept>>),
    /// Nothing more.
    End,
    /// Nothing more, since as much work was done as is allowed.
    BudgetEnd,
}

/// A search in a log.
#[derive(Drop)]
pub struct Search<'a> {
    known: &'a KnownLog,
    survey: Survey,
    /// The addresses that are looked at together, and how many times others were.
    addresses: Addresses,
    parts: usize,
    derivation: Derivation,
    roots: Roots,
    progress: Progress,
}

impl<'a> Search<'a> {
    /// Begins a search in a log, which may do so many updates of rows for each load and store, and as many as for 50,000 in any
    /// log. OutOfMemory where an allocation was refused.
    pub fn new(
        alloc: Global,
        known: &'a KnownLog,
        effort: usize,
    ) -> Result<Search<'a>, OutOfMemory> {
        let memory = Memory::new(alloc);
        let survey = Survey::new(&memory, known);
        let addresses = survey.addresses_from(0);
        let graph = graph_at(&memory, known, &survey, addresses);
        let work = Work::new(effort, known.sources().len(), graph.chains.len());
        let roots = Roots::new(&memory, known, &graph);
        let progress = Progress::new(survey.passed_over(known));
        let search = Search {
            known,
            survey,
            addresses,
            parts: 1,
            roots,
            progress,
            derivation: Derivation::new(&memory, graph, work),
        };
        memory.whole(search)
    }

    /// How much work was done so far, in updates of rows.
    pub fn updates(&self) -> usize {
        self.derivation.work.updates()
    }

    /// Into how many parts the addresses were divided so far: violations that need addresses of two parts aren't found. Under
    /// TSO there is one part.
    pub fn parts(&self) -> usize {
        self.parts
    }

    /// The next proposal, or the end. The loads of a proposal are left out of what is looked at after it. OutOfMemory where
    /// an allocation was refused. The meter hears of each operation of the log once, when it is passed: of all before `End`.
    pub fn next<M: Meter>(&mut self, alloc: Global, meter: &M) -> Result<Found, OutOfMemory> {
        let memory = Memory::new(alloc);
        let found = self.find(&memory, meter);
        memory.whole(found)
    }

    /// The next proposal, or the end.
    fn find<M: Meter>(&mut self, memory: &Memory, meter: &M) -> Found {
        for _ in 0..usize::MAX {
            self.roots.advance(
                memory,
                self.known,
                &mut self.derivation,
                &mut self.progress,
                meter,
            );
            if self.derivation.closing.is_some() {
                return self.propose(memory);
            }
            if self.derivation.is_stopped(memory) {
                return Found::BudgetEnd;
            }
            if self.addresses.to >= self.survey.count() {
                break;
            }
            self.begin_part(memory);
        }
        Found::End
    }

    /// Goes on with the next part of the addresses.
    fn begin_part(&mut self, memory: &Memory) {
        self.addresses = self.survey.addresses_from(self.addresses.to);
        self.parts = self.parts.saturating_add(1);
        self.progress.pass(self.derivation.operations());
        let graph = graph_at(memory, self.known, &self.survey, self.addresses);
        self.roots = Roots::new(memory, self.known, &graph);
        let mut work = self.derivation.work;
        work.spend(self.known.sources().len());
        self.derivation = Derivation::new(memory, graph, work);
    }

    /// What the violation needs that was found.
    fn propose(&mut self, memory: &Memory) -> Found {
        let Some(closing) = self.derivation.closing else {
            return Found::End;
        };
        let Some(explanation) = explain(memory, &self.derivation, closing) else {
            return Found::BudgetEnd;
        };
        let words = self.derivation.work.of_visits(explanation.visited);
        self.derivation.work.spend(words);
        let mut loads = Vec::new(memory.alloc());
        let selection = select(memory, &self.derivation, &explanation, &mut loads);
        if loads.is_empty() {
            // Without a load to leave out the search would find the same again.
            return Found::BudgetEnd;
        }
        self.derivation.leave_out(memory, &loads);
        self.roots.go_on();
        Found::Proposal(selection)
    }
}

/// The graph of a log at some of its addresses.
fn graph_at(memory: &Memory, known: &KnownLog, survey: &Survey, addresses: Addresses) -> Graph {
    let scope = Scope {
        known,
        survey,
        addresses,
        is_open: false,
    };
    build(memory, scope)
}
