//! Chains: nodes of a processor of which each comes before the next in every order. Under TSO these are its loads, and its
//! stores; under PSO its loads, its stores to each address, and its STBARs.

use crate::nodes::{Kind, Node};
use crate::numbers::{NONE, begin, count, item, narrow, put};
use search_memory::Memory;
use tso_ops::Order;

/// The members of each chain, one chain after the other.
#[derive(Drop)]
pub(crate) struct Chains {
    members: Vec<u32>,
    /// Where each chain begins among the members, and where the last one ends.
    starts: Vec<u32>,
    /// The chain of each processor's loads, or `NONE`.
    loads: Vec<u32>,
    /// The chain of each processor's STBARs, or `NONE`.
    stbars: Vec<u32>,
}

impl Chains {
    /// How many chains there are.
    pub(crate) fn len(&self) -> usize {
        self.starts.len().saturating_sub(1)
    }

    /// The member at a place of a chain, from 1.
    #[inline]
    pub(crate) fn member(&self, chain: u32, place: u32) -> Option<u32> {
        let before = place.checked_sub(1)?;
        let index = item(&self.starts, chain).saturating_add(before);
        if index >= item(&self.starts, chain.saturating_add(1)) {
            return None;
        }
        self.members.get(index as usize).copied()
    }

    /// The member before a node in its chain.
    pub(crate) fn before(&self, node: Node) -> Option<u32> {
        self.member(node.chain, node.place.saturating_sub(1))
    }

    /// The member after a node in its chain.
    pub(crate) fn after(&self, node: Node) -> Option<u32> {
        self.member(node.chain, node.place.saturating_add(1))
    }

    /// Under PSO the last load of its processor before a store.
    pub(crate) fn load_before(&self, store: Node) -> Option<u32> {
        self.member(item(&self.loads, store.processor), store.load_place)
    }

    /// Under PSO the last STBAR of its processor before a store.
    pub(crate) fn stbar_before(&self, store: Node) -> Option<u32> {
        self.member(item(&self.stbars, store.processor), store.stbar_place)
    }
}

/// The chains of the processor whose nodes are looked at, and how long all are.
#[derive(Drop)]
struct Lanes {
    order: Order,
    processor: u32,
    loads: u32,
    stores: u32,
    stbars: u32,
    /// Under PSO the last chain of stores to each address.
    by_address: Vec<u32>,
    lengths: Vec<u32>,
    owners: Vec<u32>,
}

impl Lanes {
    /// Gives the next node its chain and its place there.
    fn place(&mut self, memory: &Memory, node: &mut Node) {
        if node.processor != self.processor {
            self.processor = node.processor;
            self.loads = NONE;
            self.stores = NONE;
            self.stbars = NONE;
        }
        let chain = self.chain_of(memory, node);
        if node.is_store() && self.order == Order::Pso {
            node.load_place = self.length(self.loads);
            node.stbar_place = self.length(self.stbars);
        }
        node.chain = chain;
        node.place = count(&mut self.lengths, chain).saturating_add(1);
    }

    fn length(&self, chain: u32) -> u32 {
        if chain == NONE {
            0
        } else {
            item(&self.lengths, chain)
        }
    }

    /// The chain of a node, which may be a new one.
    fn chain_of(&mut self, memory: &Memory, node: &Node) -> u32 {
        let found = match node.kind {
            Kind::Load | Kind::SwapLoad => self.loads,
            Kind::Stbar => self.stbars,
            Kind::Store | Kind::SwapStore | Kind::LoneSwapStore => self.stores_to(node.address),
        };
        if found != NONE {
            return found;
        }
        let new = narrow(self.lengths.len());
        memory.push(&mut self.lengths, 0);
        memory.push(&mut self.owners, self.processor);
        match node.kind {
            Kind::Load | Kind::SwapLoad => self.loads = new,
            Kind::Stbar => self.stbars = new,
            Kind::Store | Kind::SwapStore | Kind::LoneSwapStore => {
                self.stores = new;
                put(&mut self.by_address, node.address, new);
            }
        }
        new
    }

    /// The chain of the processor's stores to an address, or `NONE`.
    fn stores_to(&self, address: u32) -> u32 {
        if self.order == Order::Tso {
            return self.stores;
        }
        let chain = item(&self.by_address, address);
        match self.owners.get(chain as usize) {
            Some(owner) if *owner == self.processor => chain,
            _ => NONE,
        }
    }
}

/// Puts the nodes into chains.
pub(crate) fn make_chains(
    memory: &Memory,
    order: Order,
    addresses: usize,
    processors: usize,
    nodes: &mut [Node],
) -> Chains {
    let mut lanes = Lanes {
        order,
        processor: NONE,
        loads: NONE,
        stores: NONE,
        stbars: NONE,
        by_address: memory.filled(NONE, addresses),
        lengths: Vec::new(memory.alloc()),
        owners: Vec::new(memory.alloc()),
    };
    let mut chains = Chains {
        members: memory.filled(NONE, nodes.len()),
        starts: Vec::new(memory.alloc()),
        loads: memory.filled(NONE, processors),
        stbars: memory.filled(NONE, processors),
    };
    for node in nodes.iter_mut() {
        lanes.place(memory, node);
        match node.kind {
            Kind::Load | Kind::SwapLoad => put(&mut chains.loads, node.processor, node.chain),
            Kind::Stbar => put(&mut chains.stbars, node.processor, node.chain),
            Kind::Store | Kind::SwapStore | Kind::LoneSwapStore => {}
        }
    }
    chains.starts = lanes.lengths;
    chains.list_members(memory, nodes);
    chains
}

impl Chains {
    /// Lists the members, now that `starts` has the length of each chain.
    fn list_members(&mut self, memory: &Memory, nodes: &[Node]) {
        memory.push(&mut self.starts, 0);
        begin(&mut self.starts);
        for (number, node) in nodes.iter().enumerate() {
            let before = node.place.saturating_sub(1);
            let index = item(&self.starts, node.chain).saturating_add(before);
            put(&mut self.members, index, narrow(number));
        }
    }
}
