//! The operations that a certificate names: those of its events, the sources of its loads, loads by which a store is seen, and
//! barriers.

use crate::parts::Parts;
use log_selections::Kept;
use std::alloc::Global;
use tso_cert::{BaseRule, CertStep, Reason, StepList};
use tso_ops::{Operations, OutOfMemory, Outcome, Part, Trace};

/// How many events a trace has at least in which a search among all operations is long.
const LONG: usize = 1_000;

/// The parts of a trace's operations that are named.
#[derive(Drop)]
struct Named<'a> {
    trace: &'a Trace,
    operations: Operations,
    parts: Parts,
}

/// The operations that the steps of a trace's certificate name, with the sources of their loads, and a load or a barrier for each
/// step that needs one. OutOfMemory where an allocation was refused.
pub(crate) fn named_operations(
    alloc: Global,
    trace: &Trace,
    steps: &StepList,
) -> Result<Vec<Vec<Kept>>, OutOfMemory> {
    let mut named = Named {
        trace,
        operations: trace.operations(alloc)?,
        parts: Parts::none(alloc, trace)?,
    };
    for step in steps.items() {
        named.name_step(step);
    }
    named.parts.lists(alloc)
}

impl Named<'_> {
    /// Names what a step needs.
    fn name_step(&mut self, step: &CertStep) {
        self.name_event(step.from);
        self.name_event(step.to);
        match &step.reason {
            Reason::Base(BaseRule::Membar) => self.name_barrier(step, Outcome::Mb),
            Reason::Base(BaseRule::Stbar) => self.name_barrier(step, Outcome::Sb),
            Reason::Base(BaseRule::Own) => self.name_load(step),
            Reason::Base(_) => {}
            Reason::Inferred { load, path, .. } => {
                self.name_event(*load);
                self.name_path(path.items());
            }
        }
    }

    /// Names the events of a path.
    fn name_path(&mut self, path: &[u64]) {
        for number in path {
            self.name_event(*number);
        }
    }

    /// Names an event, and of a load its source.
    fn name_event(&mut self, number: u64) {
        let number = number as usize;
        self.name(number);
        if let Some(source) = self.trace.source_number(number) {
            self.name(source);
        }
    }

    /// Names the operation of an event, or this part of it.
    fn name(&mut self, number: usize) {
        if let Some(operation) = self.operations.operation_of(number) {
            let part = operation.part;
            self.parts.mark(operation.proc, operation.place, part);
        }
    }

    /// Names the load by which a step leads from a store of its processor to another store, which it read: in a long trace. From
    /// a short one's operations without it the search goes on with all, and then finds the same small trace more often.
    fn name_load(&mut self, step: &CertStep) {
        if self.trace.events() < LONG {
            return;
        }
        let load = first_load(self.trace, step.from as usize, step.to as usize);
        if let Some(load) = load {
            self.name(load);
        }
    }

    /// Names the first barrier of this kind after the operation that a step leads from.
    fn name_barrier(&mut self, step: &CertStep, barrier: Outcome) {
        let Some(from) = self.operations.operation_of(step.from as usize) else {
            return;
        };
        if from.proc >= self.trace.processors() {
            return;
        }
        if let Some(place) = first_after(self.trace.ops(from.proc), from.place, barrier) {
            self.parts.mark(from.proc, place, Part::Whole);
        }
    }
}

/// The first load after a store, of its address, that read another store.
fn first_load(trace: &Trace, store: usize, other: usize) -> Option<usize> {
    for before in store..trace.events() {
        let load = before + 1;
        if trace.source_number(load) == Some(other)
            && trace.is_earlier(store, load)
            && trace.same_address(store, load)
        {
            return Some(load);
        }
    }
    None
}

/// The place of the first such operation after this place.
fn first_after(outcomes: &[Outcome], place: usize, wanted: Outcome) -> Option<usize> {
    for (index, outcome) in outcomes.iter().enumerate() {
        if index > place && *outcome == wanted {
            return Some(index);
        }
    }
    None
}
