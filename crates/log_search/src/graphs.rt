//! The nodes of a log, their chains and groups, and the edges that hold before the search.

use crate::chains::Chains;
use crate::edges::{Edges, Why};
use crate::groups::Groups;
use crate::nodes::{FIRST, Kind, Node, node_at};
use crate::numbers::{NONE, item, narrow};
use search_memory::Memory;
use tso_ops::Order;

/// The nodes, their chains and groups, and the edges that are kept in lists.
#[derive(Drop)]
pub(crate) struct Graph {
    pub(crate) order: Order,
    pub(crate) nodes: Vec<Node>,
    pub(crate) chains: Chains,
    pub(crate) groups: Groups,
    pub(crate) edges: Edges,
    /// For each node when it was done, from 1: 0 where it isn't yet.
    pub(crate) ranks: Vec<u32>,
    /// The first node of each processor, and the number of nodes.
    pub(crate) firsts: Vec<u32>,
}

impl Graph {
    /// The node of this number.
    #[inline]
    pub(crate) fn node(&self, node: u32) -> Option<Node> {
        node_at(&self.nodes, node)
    }

    /// How many addresses the nodes have.
    pub(crate) fn addresses(&self) -> usize {
        self.groups.addresses()
    }

    /// Whether a node is done.
    #[inline]
    pub(crate) fn is_done(&self, node: u32) -> bool {
        let rank = item(&self.ranks, node);
        rank != 0 && rank != NONE
    }

    /// The first reader of a store, which names the next one; `NONE` where there is none, or the node is no store.
    pub(crate) fn first_reader(&self, store: u32) -> u32 {
        match self.node(store) {
            Some(node) if node.is_store() => node.source,
            _ => NONE,
        }
    }

    /// Whether a node is the first of an operation: no swap's store after its load, and no STBAR, which is a node in each part of
    /// the addresses.
    #[inline]
    pub(crate) fn begins_operation(&self, number: u32) -> bool {
        match self.node(number) {
            Some(node) => node.kind != Kind::Stbar && !self.is_second(number, node),
            None => false,
        }
    }

    /// Whether the node before a node is one of the same operation.
    #[inline]
    fn is_second(&self, number: u32, node: Node) -> bool {
        let Some(before) = number.checked_sub(1) else {
            return false;
        };
        match self.node(before) {
            Some(before) => before.is_with(node),
            None => false,
        }
    }

    /// Whether a node is the load of a swap, which isn't left out.
    pub(crate) fn is_swap_load(&self, node: u32) -> bool {
        match self.node(node) {
            Some(node) => node.kind == Kind::SwapLoad,
            None => false,
        }
    }

    /// Leaves a load out: a swap's store stays.
    pub(crate) fn leave_out(&mut self, load: u32) {
        let Some(node) = self.nodes.get_mut(load as usize) else {
            return;
        };
        node.source = NONE;
        if node.kind == Kind::SwapLoad {
            node.kind = Kind::Load;
            if let Some(store) = self.nodes.get_mut(load.saturating_add(1) as usize) {
                store.kind = Kind::LoneSwapStore;
            }
        }
    }

    /// Where the nodes of a processor begin, and where they end.
    pub(crate) fn nodes_of(&self, processor: u32) -> (u32, u32) {
        (
            item(&self.firsts, processor),
            item(&self.firsts, processor.saturating_add(1)),
        )
    }

    /// The edges of barriers: from the stores before each that none before it covers to the first load after it.
    pub(crate) fn add_membars(&mut self, memory: &Memory, membars: &[(u32, u32)]) {
        let mut covered = 0;
        for (k, (end, operation)) in membars.iter().enumerate() {
            let after = match membars.get(k.saturating_add(1)) {
                Some(next) => next.0,
                None => NONE,
            };
            // Of several barriers before one node the last one stands for all.
            if after != *end {
                covered = self.add_membar(memory, covered, *end, *operation);
            }
        }
    }

    /// The edges of the barrier before node `end`: the first node that it doesn't cover.
    fn add_membar(&mut self, memory: &Memory, covered: u32, end: u32, barrier: u32) -> u32 {
        let Some(node) = self.node(end) else {
            return covered;
        };
        let (first, last) = self.nodes_of(node.processor);
        let load = self.load_from(end, last);
        if load == NONE {
            return covered;
        }
        self.add_from_stores(
            memory,
            (covered.max(first), end),
            load,
            Why::Membar(barrier),
        );
        end
    }

    /// The first load from a node on, before the last; `NONE` where there is none.
    fn load_from(&self, node: u32, last: u32) -> u32 {
        for load in node..last {
            if let Some(node) = self.node(load)
                && node.is_load()
            {
                return load;
            }
        }
        NONE
    }

    /// The edges to a node from the stores from one node on up to another that are the last ones of their chains there.
    fn add_from_stores(&mut self, memory: &Memory, range: (u32, u32), to: u32, why: Why) {
        let (first, end) = range;
        for store in first..end {
            if self.is_last_store(store, end) {
                self.edges.add(memory, store, to, why, 0);
            }
        }
    }

    /// Whether a node is a store, and no later store before node `end` is in its chain.
    fn is_last_store(&self, store: u32, end: u32) -> bool {
        match self.node(store) {
            Some(node) if node.is_store() => match self.chains.after(node) {
                Some(next) => next >= end,
                None => true,
            },
            _ => false,
        }
    }

    /// The edges of the rule Own between stores.
    pub(crate) fn add_own(&mut self, memory: &Memory) {
        for number in 0..self.nodes.len() {
            let load = narrow(number);
            if let Some(node) = self.node(load)
                && node.is_live_load()
                && node.own != NONE
                && node.own != node.source
                && node.source != FIRST
            {
                let why = Why::Own(load);
                self.edges.add(memory, node.own, node.source, why, 0);
            }
        }
    }

    /// The edges from stores to the STBARs after them.
    pub(crate) fn add_stbars(&mut self, memory: &Memory) {
        let mut first = 0;
        for number in 0..self.nodes.len() {
            let stbar = narrow(number);
            if let Some(node) = self.node(stbar)
                && node.kind == Kind::Stbar
            {
                let start = self.nodes_of(node.processor).0;
                self.add_from_stores(memory, (first.max(start), stbar), stbar, Why::Stbar);
                first = stbar;
            }
        }
    }
}
