//! The events of a trace in chains, each of which every order keeps.

use search_memory::Memory;
use tso_ops::{Event, Order, Trace};

/// The number of processors that a trace has at most.
const PROCESSORS: usize = 16;

/// The number of addresses.
const ADDRESSES: usize = 256;

/// In place of the chain of a kind of events that has none yet.
const NO_CHAIN: usize = usize::MAX;

/// Each processor's loads in a chain, and its stores in another, under PSO in one for each address. A chain is in program
/// order, which the axioms LoadOp and StoreStore keep.
#[derive(Drop)]
pub(crate) struct Chains {
    lists: Vec<Vec<usize>>,
    chain_of: Vec<usize>,
}

impl Chains {
    /// The chains of a trace.
    pub(crate) fn new(memory: &Memory, trace: &Trace) -> Chains {
        let nodes = trace.node_count();
        let mut known = memory.filled(NO_CHAIN, PROCESSORS + PROCESSORS * ADDRESSES);
        let mut chains = Chains {
            lists: Vec::new(memory.alloc()),
            chain_of: memory.filled(0, nodes),
        };
        for n in 0..nodes {
            if let Some(event) = trace.event(n) {
                let kind = kind_of(trace.order(), event);
                let chain = chains.chain_for(memory, &mut known, kind);
                chains.add(memory, chain, n);
            }
        }
        chains
    }

    /// The chain of a kind of events, a new one where it has none yet.
    fn chain_for(&mut self, memory: &Memory, known: &mut [usize], kind: usize) -> usize {
        let new = self.lists.len();
        match known.get_mut(kind) {
            Some(chain) if *chain == NO_CHAIN => {
                *chain = new;
                memory.push(&mut self.lists, Vec::new(memory.alloc()));
                new
            }
            Some(chain) => *chain,
            None => NO_CHAIN,
        }
    }

    /// Adds an event to a chain.
    fn add(&mut self, memory: &Memory, chain: usize, n: usize) {
        if let Some(entry) = self.chain_of.get_mut(n) {
            *entry = chain;
        }
        if let Some(list) = self.lists.get_mut(chain) {
            memory.push(list, n);
        }
    }

    /// The number of chains.
    pub(crate) fn count(&self) -> usize {
        self.lists.len()
    }

    /// The event at a place of a chain, both from 0.
    #[inline]
    pub(crate) fn at(&self, chain: usize, place: usize) -> Option<usize> {
        self.lists.get(chain)?.get(place).copied()
    }

    /// The chain of an event.
    #[inline]
    pub(crate) fn of(&self, n: usize) -> Option<usize> {
        self.chain_of.get(n).copied()
    }
}

/// A number for the kind of an event: its processor, whether it is a load, and under PSO a store's address.
fn kind_of(order: Order, event: Event) -> usize {
    if event.load {
        return event.proc;
    }
    let address = match order {
        Order::Tso => 0,
        Order::Pso => event.a as usize,
    };
    event
        .proc
        .saturating_mul(ADDRESSES)
        .saturating_add(address)
        .saturating_add(PROCESSORS)
}
