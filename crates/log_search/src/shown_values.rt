//! What is shown of a violation by values: its evidence, a cycle or a load, and how the sources of loads were found.

use crate::candidates::{Candidates, Part};
use crate::derivation::{Closing, Derivation};
use crate::eliminations::Elimination;
use crate::nodes::{FIRST, Kind, Node};
use crate::notes::event_of;
use crate::numbers::NONE;
use crate::paths::{Task, find_path};
use log_selections::KnownLog;
use search_memory::Memory;
use value_evidence::{ValueEnd, ValueEvidence};

/// A load whose source was found by elimination, or that can have read nothing. Numbers are those of events.
#[derive(Debug, Drop)]
pub struct ShownLoad {
    /// The load.
    pub load: usize,
    /// Its source, 0 for the first value; None where it can have read nothing.
    pub source: Option<usize>,
    /// How many stores of its value there are to its address.
    pub stores: usize,
    /// How many of them another store follows that the load sees.
    pub overwritten: usize,
    /// How many of the others come after the load.
    pub later: usize,
    /// How many of the others another swap read, if the load is a swap's.
    pub taken: usize,
    /// Of each processor that has some the last one that is overwritten.
    pub before: Vec<usize>,
    /// Of each processor that has some the first one that comes after the load.
    pub after: Vec<usize>,
}

/// A violation by values.
#[derive(Debug, Drop)]
pub struct ValueViolation {
    /// Why there is no order.
    pub evidence: ValueEvidence,
    /// The events of a cycle, each of which comes before the next and the last before the first, by their numbers; none where a
    /// load can have read nothing.
    pub cycle: Vec<usize>,
    /// The loads that are shown whose sources were found by elimination, and the load that can have read nothing.
    pub loads: Vec<ShownLoad>,
}

/// What is shown, while it is put together.
#[derive(Drop)]
struct Showing<'a> {
    known: &'a KnownLog,
    derivation: &'a Derivation,
    candidates: &'a Candidates,
    cycle: Vec<usize>,
    /// The nodes of loads.
    loads: Vec<u32>,
}

/// What is shown of the violation that an elimination came to.
pub(crate) fn violation_of(
    memory: &Memory,
    known: &KnownLog,
    elimination: &Elimination,
    closing: Closing,
) -> ValueViolation {
    let derivation = &elimination.derivation;
    let mut showing = showing_of(memory, known, elimination);
    let end = showing.end(memory, closing);
    let loads = showing.all_shown(memory);
    ValueViolation {
        evidence: ValueEvidence {
            steps: derivation.notes.steps(memory, known, &derivation.graph),
            end,
        },
        cycle: showing.cycle,
        loads,
    }
}

/// The end of evidence to which an elimination came.
pub(crate) fn end_of(
    memory: &Memory,
    known: &KnownLog,
    elimination: &Elimination,
    closing: Closing,
) -> ValueEnd {
    showing_of(memory, known, elimination).end(memory, closing)
}

/// Nothing is shown yet of what an elimination came to.
fn showing_of<'a>(
    memory: &Memory,
    known: &'a KnownLog,
    elimination: &'a Elimination,
) -> Showing<'a> {
    Showing {
        known,
        derivation: &elimination.derivation,
        candidates: &elimination.candidates,
        cycle: Vec::new(memory.alloc()),
        loads: Vec::new(memory.alloc()),
    }
}

impl Showing<'_> {
    /// The end of evidence, what it says of being shown.
    fn end(&mut self, memory: &Memory, closing: Closing) -> ValueEnd {
        match closing {
            Closing::Node(node) => {
                self.add_cycle(memory, node);
                let event = match self.cycle.first().copied() {
                    Some(event) => event,
                    None => event_of(self.known, &self.derivation.graph, node),
                };
                ValueEnd::Cycle(event)
            }
            Closing::First { load, .. }
            | Closing::OwnFirst { load, .. }
            | Closing::NoSource(load) => {
                self.add_load(memory, load);
                ValueEnd::NoSource(event_of(self.known, &self.derivation.graph, load))
            }
        }
    }

    fn add_load(&mut self, memory: &Memory, load: u32) {
        if let Some(node) = self.derivation.graph.node(load)
            && node.is_load()
            && self.candidates.count(load) != 1
            && !self.loads.contains(&load)
        {
            memory.push(&mut self.loads, load);
        }
    }

    /// Adds a cycle through a node: its events, and the loads that its steps need.
    fn add_cycle(&mut self, memory: &Memory, node: u32) {
        let task = Task {
            from: node,
            to: node,
            limit: u32::MAX,
        };
        let mut visited = 0;
        let Some(path) = find_path(memory, self.derivation, task, true, &mut visited) else {
            return;
        };
        for step in &path {
            let event = event_of(self.known, &self.derivation.graph, step.from);
            if event > 0 {
                memory.push(&mut self.cycle, event);
            }
            self.add_load(memory, step.from);
            if let Some(load) = step.why.load() {
                self.add_load(memory, load);
            }
        }
    }

    /// What is shown of all loads that are shown.
    fn all_shown(&self, memory: &Memory) -> Vec<ShownLoad> {
        let mut loads = Vec::new(memory.alloc());
        for load in &self.loads {
            if let Some(shown) = self.shown(memory, *load) {
                memory.push(&mut loads, shown);
            }
        }
        loads
    }

    /// What is shown of a load.
    fn shown(&self, memory: &Memory, load: u32) -> Option<ShownLoad> {
        let graph = &self.derivation.graph;
        let Some(node) = graph.node(load) else {
            return None;
        };
        let mut shown = ShownLoad {
            load: event_of(self.known, graph, load),
            source: self.source_shown(load, node),
            stores: 0,
            overwritten: 0,
            later: 0,
            taken: 0,
            before: Vec::new(memory.alloc()),
            after: Vec::new(memory.alloc()),
        };
        let seen = self.seen_by(memory, load, node);
        let (start, end) = self.candidates.parts_of(load);
        for index in start..end {
            if let Some(part) = self.candidates.part(index) {
                self.show_part(memory, load, &seen, part, &mut shown);
            }
        }
        Some(shown)
    }

    fn source_shown(&self, load: u32, node: Node) -> Option<usize> {
        match self.derivation.closing {
            Some(
                Closing::First { load: lost, .. }
                | Closing::OwnFirst { load: lost, .. }
                | Closing::NoSource(lost),
            ) if lost == load => None,
            _ if node.is_open() || node.source == NONE => None,
            _ if node.source == FIRST => Some(0),
            _ => Some(event_of(self.known, &self.derivation.graph, node.source)),
        }
    }

    /// What a load sees: its own last store, and the last of each other chain that reaches it.
    fn seen_by(&self, memory: &Memory, load: u32, node: Node) -> Vec<u32> {
        let mut seen = Vec::new(memory.alloc());
        if node.own != NONE {
            memory.push(&mut seen, node.own);
        }
        let graph = &self.derivation.graph;
        let (start, end) = graph.groups.range(node.address);
        for index in start..end {
            let Some(group) = graph.groups.get(index) else {
                break;
            };
            let place = self.derivation.rows.place(load, group.chain);
            let past = graph.groups.after(group, place).0;
            let last = graph.groups.place(past.saturating_sub(1));
            if place >= graph.groups.first_place(group)
                && let Some(store) = graph.chains.member(group.chain, last)
                && !self.derivation.is_own_before(store, load, node)
            {
                memory.push(&mut seen, store);
            }
        }
        seen
    }

    /// Counts the stores of a part.
    fn show_part(
        &self,
        memory: &Memory,
        load: u32,
        seen: &[u32],
        part: Part,
        shown: &mut ShownLoad,
    ) {
        let graph = &self.derivation.graph;
        let mut past = 0;
        for store in seen {
            past = past.max(self.derivation.rows.place(*store, part.chain));
        }
        let over = self.candidates.end_up_to(part, past);
        shown.stores = shown
            .stores
            .saturating_add(part.end.saturating_sub(part.start) as usize);
        if over > part.start {
            shown.overwritten = shown
                .overwritten
                .saturating_add(over.saturating_sub(part.start) as usize);
            let place = self.candidates.place(over.saturating_sub(1));
            if let Some(store) = graph.chains.member(part.chain, place) {
                memory.push(&mut shown.before, event_of(self.known, graph, store));
            }
        }
        self.show_later(memory, load, part, over, shown);
    }

    /// Counts the stores of a part from an index on that come after a load, and those that another swap read.
    fn show_later(
        &self,
        memory: &Memory,
        load: u32,
        part: Part,
        start: u32,
        shown: &mut ShownLoad,
    ) {
        let graph = &self.derivation.graph;
        let Some(node) = graph.node(load) else {
            return;
        };
        for index in start..part.end {
            let place = self.candidates.place(index);
            let Some(store) = graph.chains.member(part.chain, place) else {
                break;
            };
            if self.derivation.reaches(load, store)
                && !self.derivation.is_own_before(store, load, node)
            {
                memory.push(&mut shown.after, event_of(self.known, graph, store));
                let left = part.end.saturating_sub(index) as usize;
                shown.later = shown.later.saturating_add(left);
                break;
            }
            if node.kind == Kind::SwapLoad && node.source != store {
                shown.taken = shown.taken.saturating_add(1);
            }
        }
    }
}
