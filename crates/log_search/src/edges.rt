//! Edges that are kept in lists: those of barriers, Own edges, and the inferred ones as they are found.

use crate::numbers::{NONE, item, narrow, put};
use search_memory::Memory;

/// Why a node comes before another.
#[derive(Clone, Copy)]
pub(crate) enum Why {
    /// The first is the one before the second in its chain.
    Chain,
    /// A load before a store of its processor.
    LoadOp,
    /// An STBAR before a store, or a store before an STBAR.
    Stbar,
    /// A barrier of this index stands between them.
    Membar(u32),
    /// The second read the first.
    Read,
    /// The rule Own, for this load.
    Own(u32),
    /// The rule LoadPast, for this load.
    LoadPast(u32),
    /// The rule StorePast, for this load.
    StorePast(u32),
    /// The rule SwapBefore, for this load.
    SwapBefore(u32),
    /// The rule SwapAfter, for this load.
    SwapAfter(u32),
    /// The first is the source of the second, which may be no reason for an edge.
    Source,
    /// The first comes before all that the second, this load, can have read.
    AgreeIn(u32),
    /// All that the first, this load, can have read comes before the second.
    AgreeOut(u32),
    /// A case supposes it.
    Supposed,
}

impl Why {
    /// The load that the edge needs.
    pub(crate) fn load(self) -> Option<u32> {
        match self {
            Why::Own(load)
            | Why::LoadPast(load)
            | Why::StorePast(load)
            | Why::SwapBefore(load)
            | Why::SwapAfter(load)
            | Why::AgreeIn(load)
            | Why::AgreeOut(load) => Some(load),
            Why::Chain
            | Why::LoadOp
            | Why::Stbar
            | Why::Membar(_)
            | Why::Read
            | Why::Source
            | Why::Supposed => None,
        }
    }
}

/// An edge from `u` to `v`, and when it was found. The next ones are those before it from `u` and to `v`.
#[derive(Clone, Copy)]
pub(crate) struct KeptEdge {
    pub(crate) u: u32,
    pub(crate) v: u32,
    pub(crate) why: Why,
    pub(crate) time: u32,
    pub(crate) next_from: u32,
    pub(crate) next_to: u32,
}

/// The edges, in the order in which they were found, and the last one from and to each node.
#[derive(Drop)]
pub(crate) struct Edges {
    edges: Vec<KeptEdge>,
    from: Vec<u32>,
    to: Vec<u32>,
}

impl Edges {
    /// No edges between so many nodes.
    pub(crate) fn new(memory: &Memory, nodes: usize) -> Edges {
        Edges {
            edges: Vec::new(memory.alloc()),
            from: memory.filled(NONE, nodes),
            to: memory.filled(NONE, nodes),
        }
    }

    /// Adds an edge.
    pub(crate) fn add(&mut self, memory: &Memory, u: u32, v: u32, why: Why, time: u32) {
        let edge = narrow(self.edges.len());
        let kept = KeptEdge {
            u,
            v,
            why,
            time,
            next_from: item(&self.from, u),
            next_to: item(&self.to, v),
        };
        memory.push(&mut self.edges, kept);
        put(&mut self.from, u, edge);
        put(&mut self.to, v, edge);
    }

    /// The edge of this number.
    pub(crate) fn get(&self, edge: u32) -> Option<KeptEdge> {
        self.edges.get(edge as usize).copied()
    }

    /// The number of the last edge from a node.
    pub(crate) fn last_from(&self, node: u32) -> u32 {
        item(&self.from, node)
    }

    /// The number of the last edge to a node.
    pub(crate) fn last_to(&self, node: u32) -> u32 {
        item(&self.to, node)
    }

    /// How many edges there are.
    pub(crate) fn len(&self) -> usize {
        self.edges.len()
    }

    /// Whether there is an edge from `u` to `v`.
    pub(crate) fn has(&self, u: u32, v: u32) -> bool {
        let mut at = self.last_from(u);
        for _ in 0..self.edges.len() {
            let Some(edge) = self.get(at) else {
                return false;
            };
            if edge.v == v {
                return true;
            }
            at = edge.next_from;
        }
        false
    }

    /// Takes away the edges that were found at this time or later.
    pub(crate) fn forget_from(&mut self, time: u32) {
        for _ in 0..self.edges.len() {
            match self.edges.last().copied() {
                Some(edge) if edge.time >= time => {
                    put(&mut self.from, edge.u, edge.next_from);
                    put(&mut self.to, edge.v, edge.next_to);
                    self.edges.pop();
                }
                _ => return,
            }
        }
    }
}
