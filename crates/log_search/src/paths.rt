//! Cheap paths, from edges that were found before a time.

use crate::derivation::Derivation;
use crate::edges::Why;
use crate::links::{Link, Links};
use crate::numbers::NONE;
use search_memory::Memory;
use std::collections::{BinaryHeap, HashMap};

/// What a step costs that a base rule gives.
const BASE: u32 = 2;
/// What a step costs that an inferred rule gives.
const INFERRED: u32 = 8;

/// A path that is asked for: from a node to another, or round from a node to itself.
#[derive(Clone, Copy)]
pub(crate) struct Task {
    pub(crate) from: u32,
    pub(crate) to: u32,
    /// The numbers of its edges that are kept in lists are below this one.
    pub(crate) limit: u32,
}

/// A step of a path.
#[derive(Clone, Copy)]
pub(crate) struct PathStep {
    pub(crate) from: u32,
    pub(crate) to: u32,
    pub(crate) why: Why,
    /// One more than the edge's number where it is kept in a list, else 0.
    pub(crate) number: u32,
}

/// The cheapest way so far from a node to the end.
#[derive(Clone, Copy)]
struct Way {
    cost: u32,
    step: PathStep,
}

/// The ways that were found, and the nodes to go on from, the cheapest on top. The beginning is `NONE` there, since a path
/// may lead from a node to itself.
#[derive(Drop)]
struct Ways {
    task: Task,
    ways: HashMap<u32, Way>,
    next: BinaryHeap<u64>,
    links: Links,
    /// Whether only nodes that are done, and that the beginning is known to reach, are on the way.
    is_narrow: bool,
    /// How many nodes and edges to them were come to.
    visited: usize,
}

/// A cheap path, if there is one; only over nodes that are done and that the beginning is known to reach, if `is_narrow`.
/// `visited` counts nodes and the edges to them.
pub(crate) fn find_path(
    memory: &Memory,
    derivation: &Derivation,
    task: Task,
    is_narrow: bool,
    visited: &mut usize,
) -> Option<Vec<PathStep>> {
    let mut ways = Ways {
        task,
        ways: HashMap::new(memory.alloc()),
        next: BinaryHeap::new(memory.alloc()),
        links: Links::new(memory.alloc()),
        is_narrow,
        visited: *visited,
    };
    ways.search(memory, derivation);
    *visited = ways.visited;
    ways.path(memory)
}

fn key(cost: u32, node: u32) -> u64 {
    u64::from(u32::MAX - cost) << 32 | u64::from(node)
}

/// What a step costs.
fn cost_of(why: Why) -> u32 {
    match why {
        Why::Chain => 0,
        Why::LoadOp
        | Why::Stbar
        | Why::Membar(_)
        | Why::Read
        | Why::Source
        | Why::Own(_)
        | Why::Supposed => BASE,
        Why::LoadPast(_)
        | Why::StorePast(_)
        | Why::SwapBefore(_)
        | Why::SwapAfter(_)
        | Why::AgreeIn(_)
        | Why::AgreeOut(_) => INFERRED,
    }
}

impl Ways {
    /// Goes back from the end to the beginning, if a path leads there.
    fn search(&mut self, memory: &Memory, derivation: &Derivation) {
        self.push(memory, 0, self.task.to);
        for _ in 0..usize::MAX {
            let Some((cost, node)) = self.pop() else {
                return;
            };
            if node == NONE || memory.is_refused() {
                return;
            }
            self.visited = self.visited.saturating_add(1);
            if cost <= self.cost(node) {
                self.go_back(memory, derivation, node, cost);
            }
        }
    }

    /// The cheapest node to go on from.
    fn pop(&mut self) -> Option<(u32, u32)> {
        let Some(top) = self.next.pop() else {
            return None;
        };
        let cost = u32::MAX - (top >> 32) as u32;
        Some((cost, (top & u64::from(u32::MAX)) as u32))
    }

    fn push(&mut self, memory: &Memory, cost: u32, node: u32) {
        memory.note(self.next.push(key(cost, node)).is_err());
    }

    fn cost(&self, node: u32) -> u32 {
        if node == self.task.to {
            return 0;
        }
        match self.ways.get(&node) {
            Some(way) => way.cost,
            None => u32::MAX,
        }
    }

    /// Goes back from a node by each edge to it.
    fn go_back(&mut self, memory: &Memory, derivation: &Derivation, node: u32, cost: u32) {
        let from = self.task.from;
        if is_after_in_chain(derivation, from, node) {
            self.visited = self.visited.saturating_add(self.links.len());
            let step = PathStep {
                from,
                to: node,
                why: Why::Chain,
                number: 0,
            };
            return self.add(memory, step, cost);
        }
        derivation.graph.links_to(memory, node, &mut self.links);
        self.visited = self.visited.saturating_add(self.links.len());
        for k in 0..self.links.len() {
            if let Some(link) = self.links.get(k)
                && link.number < self.task.limit
                && (!self.is_narrow || leads_back(derivation, from, link))
            {
                let step = PathStep {
                    from: link.node,
                    to: node,
                    why: link.why,
                    number: link.number,
                };
                let cost = cost.saturating_add(cost_of(link.why));
                self.add(memory, step, cost);
            }
        }
    }

    /// Adds a way, if it is the cheapest so far.
    fn add(&mut self, memory: &Memory, step: PathStep, cost: u32) {
        let at = if step.from == self.task.from {
            NONE
        } else {
            step.from
        };
        let is_better = match self.ways.get(&at) {
            Some(way) => cost < way.cost,
            None => at != self.task.to,
        };
        if is_better {
            memory.note(self.ways.insert(at, Way { cost, step }).is_err());
            self.push(memory, cost, at);
        }
    }

    /// The path that was found.
    fn path(&self, memory: &Memory) -> Option<Vec<PathStep>> {
        let mut path = Vec::new(memory.alloc());
        let mut at = NONE;
        for _ in 0..self.ways.len() {
            let Some(way) = self.ways.get(&at) else {
                return None;
            };
            memory.push(&mut path, way.step);
            at = way.step.to;
            if at == self.task.to {
                return Some(path);
            }
        }
        None
    }
}

/// Whether going back by an edge may lead to the beginning, as far as the rows of nodes that are done say.
fn leads_back(derivation: &Derivation, from: u32, link: Link) -> bool {
    (link.node == from || derivation.reaches(from, link.node)) && derivation.graph.allows(link)
}

/// Whether a node stands after another in its chain.
fn is_after_in_chain(derivation: &Derivation, first: u32, second: u32) -> bool {
    match (derivation.graph.node(first), derivation.graph.node(second)) {
        (Some(first), Some(second)) => { first.chain == second.chain && first.place < second.place }
        _ => false,
    }
}
