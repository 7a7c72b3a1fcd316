//! Why there is a cycle: the nodes and barriers that it needs, and those that its inferred edges need.

use crate::derivation::{Closing, Derivation};
use crate::edges::Why;
use crate::nodes::FIRST;
use crate::paths::{PathStep, Task, find_path};
use search_memory::Memory;

/// What a violation needs.
#[derive(Drop)]
pub(crate) struct Explanation {
    pub(crate) nodes: Vec<u32>,
    /// Barriers, each with a node of its processor.
    pub(crate) barriers: Vec<(u32, u32)>,
    /// How many nodes and edges were come to.
    pub(crate) visited: usize,
    tasks: Vec<Task>,
    /// Edges that were looked at, by their numbers.
    seen: Vec<u32>,
}

/// What a violation needs, where its paths are found; None where the work for them is more than is left.
pub(crate) fn explain(
    memory: &Memory,
    derivation: &Derivation,
    closing: Closing,
) -> Option<Explanation> {
    let alloc = memory.alloc();
    let mut explanation = Explanation {
        nodes: Vec::new(alloc),
        barriers: Vec::new(alloc),
        visited: 0,
        tasks: Vec::new(alloc),
        seen: Vec::new(alloc),
    };
    match closing {
        Closing::Node(node) => explanation.ask(memory, node, node, u32::MAX),
        Closing::First { store, load } => explanation.ask(memory, store, load, u32::MAX),
        Closing::OwnFirst { store, load } => explanation.add_nodes(memory, store, load),
        Closing::NoSource(load) => explanation.add_node(memory, load),
    }
    for _ in 0..usize::MAX {
        let Some(task) = explanation.tasks.pop() else {
            break;
        };
        if derivation.work.of_visits(explanation.visited) > derivation.work.left() {
            return None;
        }
        explanation.add_path(memory, derivation, task);
    }
    Some(explanation)
}

impl Explanation {
    fn add_node(&mut self, memory: &Memory, node: u32) {
        memory.push(&mut self.nodes, node);
    }

    fn add_nodes(&mut self, memory: &Memory, first: u32, second: u32) {
        self.add_node(memory, first);
        self.add_node(memory, second);
    }

    fn ask(&mut self, memory: &Memory, from: u32, to: u32, limit: u32) {
        self.add_nodes(memory, from, to);
        memory.push(&mut self.tasks, Task { from, to, limit });
    }

    /// Adds what a path needs: if there is none over nodes that are done now, one that was there when the edge was found.
    fn add_path(&mut self, memory: &Memory, derivation: &Derivation, task: Task) {
        let path = match find_path(memory, derivation, task, true, &mut self.visited) {
            Some(path) => Some(path),
            None => find_path(memory, derivation, task, false, &mut self.visited),
        };
        if let Some(path) = path {
            for step in &path {
                self.add_step(memory, derivation, *step);
            }
        }
    }

    /// Adds what a step needs. Steps in program order need the ends of the whole way alone, which the steps beside them add.
    fn add_step(&mut self, memory: &Memory, derivation: &Derivation, step: PathStep) {
        match step.why {
            Why::Chain | Why::LoadOp => return,
            Why::Stbar => {
                self.add_stbar(memory, derivation, step.from);
                return self.add_stbar(memory, derivation, step.to);
            }
            Why::Membar(barrier) => memory.push(&mut self.barriers, (step.to, barrier)),
            Why::Read | Why::Source | Why::Supposed => {}
            Why::Own(load) | Why::AgreeIn(load) | Why::AgreeOut(load) => {
                self.add_node(memory, load);
            }
            Why::LoadPast(load) => self.add_premise(memory, load, step.from, load, step.number),
            Why::StorePast(load) => {
                self.add_node(memory, load);
                if let Some(node) = derivation.graph.node(load)
                    && node.source != FIRST
                {
                    self.add_premise(memory, load, node.source, step.to, step.number);
                }
            }
            Why::SwapBefore(load) => {
                let store = load.saturating_add(1);
                self.add_premise(memory, load, step.from, store, step.number);
            }
            Why::SwapAfter(load) => {
                self.add_node(memory, load.saturating_add(1));
                self.add_premise(memory, load, load, step.to, step.number);
            }
        }
        self.add_nodes(memory, step.from, step.to);
    }

    /// Adds the end of a step if it is an STBAR.
    fn add_stbar(&mut self, memory: &Memory, derivation: &Derivation, end: u32) {
        if let Some(node) = derivation.graph.node(end)
            && !node.is_load()
            && !node.is_store()
        {
            self.add_node(memory, end);
        }
    }

    /// Adds the path that an inferred step of this number follows from: that of an edge which is kept in no list is one of the
    /// chain.
    fn add_premise(&mut self, memory: &Memory, load: u32, from: u32, to: u32, number: u32) {
        self.add_node(memory, load);
        self.add_nodes(memory, from, to);
        if number > 0 && !self.seen.contains(&number) {
            memory.push(&mut self.seen, number);
            self.ask(memory, from, to, number);
        }
    }
}
