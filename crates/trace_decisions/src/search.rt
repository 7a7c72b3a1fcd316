//! A search for an order of a trace, or for a refutation, by cases.

use crate::search::chains::Chains;
use crate::search::closing::{add_closed, graph_with};
use crate::search::links::{Link, Links};
use crate::search::refuting::{Part, Refuting};
use crate::search::simulation::{Outcome, Pair, simulate};
use order_graph::Graph;
use round_pool::Ranked;
use search_memory::Memory;
use std::mem;
use tso_evidence::RefutationLine;
use tso_ops::{OutOfMemory, Trace};

mod bases;
mod chains;
mod closing;
mod explaining;
mod links;
mod paths;
mod refuting;
mod simulation;

/// What a search does next, or what it found.
#[derive(Drop)]
pub(crate) enum Next {
    /// It supposes that the second store of the pair comes before the first, and then otherwise.
    Case(Pair),
    /// It goes back, for this part refutes what was supposed last.
    Clash(Part),
    /// This is an order of all events.
    Order(Vec<u64>),
    /// These are the lines of a refutation.
    Refuted(Vec<RefutationLine>),
    /// It doesn't know what to do, which isn't known to happen.
    Lost,
}

/// A case that is looked at: what it supposes stands in the links at a place. In its second half the part that refutes the first
/// is there.
#[derive(Drop)]
struct OpenCase {
    place: usize,
    then: Option<Part>,
}

/// A search, with the cases that are open, the first one first.
#[derive(Drop)]
pub(crate) struct Search<'a> {
    /// The graph of the rounds, which is closed.
    closed: &'a Graph,
    chains: Chains,
    /// The graph of what is supposed now, where it stands.
    graph: Option<Graph>,
    refuting: Refuting<'a>,
    open: Vec<OpenCase>,
    next: Next,
}

impl<'a> Search<'a> {
    /// The search in a trace without cycle after its rounds, which isn't begun.
    pub(crate) fn new(memory: &'a Memory, trace: &'a Trace, ranked: &'a Ranked) -> Search<'a> {
        Search {
            closed: ranked.last(),
            chains: Chains::new(memory, trace),
            graph: None,
            refuting: Refuting {
                memory,
                trace,
                links: Links::of_rounds(memory, trace.node_count(), ranked),
            },
            open: Vec::new(memory.alloc()),
            next: Next::Lost,
        }
    }

    /// Looks at what a simulation of the trace says before anything is supposed.
    pub(crate) fn begin(&mut self) {
        self.next = self.simulated(self.closed);
    }

    /// Takes what the search does next, or what it found, out of it. OutOfMemory where an allocation was refused so far.
    pub(crate) fn take(&mut self) -> Result<Next, OutOfMemory> {
        let next = mem::replace(&mut self.next, Next::Lost);
        self.refuting.memory.whole(next)
    }

    /// Takes a step, the one that was taken out: begins a case, or goes back to one and turns it round.
    pub(crate) fn step(&mut self, next: Next) {
        self.next = match next {
            Next::Case(pair) => self.begin_case(pair),
            Next::Clash(part) => self.go_back(part),
            other => other,
        };
    }

    /// Supposes that the second store of the pair comes before the first.
    fn begin_case(&mut self, pair: Pair) -> Next {
        let place = self.refuting.links.count();
        self.open_case(place, None);
        self.suppose(pair.second, pair.first)
    }

    fn open_case(&mut self, place: usize, then: Option<Part>) {
        let memory = self.refuting.memory;
        memory.push(&mut self.open, OpenCase { place, then });
    }

    /// Supposes that an event comes before another, and goes on from there.
    fn suppose(&mut self, from: usize, to: usize) -> Next {
        let link = Link {
            from,
            to,
            is_case: true,
        };
        match self.take_graph() {
            Some(graph) => self.suppose_in(graph, link),
            None => Next::Lost,
        }
    }

    /// The graph of what is supposed now; None where memory for it was refused.
    fn take_graph(&mut self) -> Option<Graph> {
        if let Some(graph) = self.graph.take() {
            return Some(graph);
        }
        let memory = self.refuting.memory;
        match graph_with(memory.alloc(), self.closed, &self.refuting.links) {
            Ok(graph) => Some(graph),
            Err(_) => {
                memory.note(true);
                None
            }
        }
    }

    /// Supposes a link in a graph, and goes on from there.
    fn suppose_in(&mut self, closed: Graph, link: Link) -> Next {
        let mut graph = closed;
        let trace = self.refuting.trace;
        match add_closed(trace, &mut graph, &mut self.refuting.links, link) {
            Some(place) => self.clash(place),
            None => {
                let next = self.simulated(&graph);
                self.graph = Some(graph);
                next
            }
        }
    }

    /// What a simulation over a closed graph says.
    fn simulated(&self, graph: &Graph) -> Next {
        let memory = self.refuting.memory;
        match simulate(memory, self.refuting.trace, graph, &self.chains) {
            Outcome::Ordered(order) => Next::Order(order),
            Outcome::Stuck(pair) => Next::Case(pair),
            Outcome::Lost => Next::Lost,
        }
    }

    /// The part of the cycle that a link closes, with the steps that come after the last case.
    fn clash(&mut self, place: usize) -> Next {
        self.refuting.links.list_all();
        match self.refuting.cycle_part(place) {
            Some(part) => Next::Clash(self.with_steps(part)),
            None => Next::Lost,
        }
    }

    /// A part with the steps that come after the last case.
    fn with_steps(&self, part: Part) -> Part {
        let first = match self.open.last() {
            Some(case) => case.place.saturating_add(1),
            None => 0,
        };
        self.refuting.with_steps(part, first)
    }

    /// Goes back over the cases that the part doesn't rest on, or that it refutes in their second half: to one whose second half
    /// is left, or to the end.
    fn go_back(&mut self, part: Part) -> Next {
        let mut part = part;
        for _ in 0..self.open.len() {
            let Some(case) = self.open.pop() else {
                break;
            };
            let OpenCase { place, then } = case;
            if !part.needs(place) {
                part = self.up_to(part, place);
                continue;
            }
            match then {
                None => return self.turn_round(place, part),
                Some(then) => part = self.both(place, then, part),
            }
        }
        Next::Refuted(self.refuting.whole(part))
    }

    /// The part, of what comes after the case before, up to the link at this place; the links from there on are taken back.
    fn up_to(&mut self, part: Part, place: usize) -> Part {
        self.refuting.links.cut(place);
        self.graph = None;
        self.with_steps(part)
    }

    /// The part of a case whose halves are refuted, of what comes after the case before.
    fn both(&mut self, place: usize, then: Part, other: Part) -> Part {
        let Some(link) = self.refuting.links.at(place) else {
            return other;
        };
        let memory = self.refuting.memory;
        let part = then.with_second_half(memory, link.to as u64, link.from as u64, other);
        self.up_to(part, place)
    }

    /// Goes on with the second half of a case, of which the part refutes the first.
    fn turn_round(&mut self, place: usize, part: Part) -> Next {
        let Some(link) = self.refuting.links.at(place) else {
            return Next::Lost;
        };
        self.refuting.links.cut(place);
        self.graph = None;
        self.open_case(place, Some(part));
        self.suppose(link.to, link.from)
    }
}
