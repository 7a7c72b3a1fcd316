//! An order of all events of a trace that respects a closed graph, made event by event.

use crate::search::chains::Chains;
use crate::search::closing::leads;
use order_graph::Graph;
use search_memory::Memory;
use tso_ops::Trace;

mod choices;
mod readers;

pub(crate) use choices::Pair;
use readers::Readers;

/// The number of addresses.
const ADDRESSES: usize = 256;

/// How a simulation ended.
#[derive(Drop)]
pub(crate) enum Outcome {
    /// With this order of all events.
    Ordered(Vec<u64>),
    /// No event could come next. The first store of the pair came, one of its loads didn't, and the second store, of the same
    /// address, is ready.
    Stuck(Pair),
    /// No event could come next, and no such pair is there. It isn't known to happen.
    Lost,
}

/// The events that have come, in their order, and what may come next.
#[derive(Drop)]
pub(crate) struct Simulation<'a> {
    memory: &'a Memory,
    trace: &'a Trace,
    graph: &'a Graph,
    chains: &'a Chains,
    /// How many events of each chain have come.
    come: Vec<usize>,
    /// An event that has to come before the next event of each chain, as far as one is known; 0 where none is.
    blockers: Vec<usize>,
    /// For each store how many of its loads haven't come.
    readers: Readers,
    /// The store of each address that came last; 0 where none came.
    latest: Vec<usize>,
    order: Vec<u64>,
}

/// Goes through the events of a trace in an order that respects the graph, which is closed and has no cycle: loads as soon as
/// they can come, stores once no load of the store before is left.
pub(crate) fn simulate(memory: &Memory, trace: &Trace, graph: &Graph, chains: &Chains) -> Outcome {
    let mut simulation = Simulation {
        memory,
        trace,
        graph,
        chains,
        come: memory.filled(0, chains.count()),
        blockers: memory.filled(0, chains.count()),
        readers: Readers::new(memory, trace),
        latest: memory.filled(0, ADDRESSES),
        order: memory.list(Vec::with_capacity(memory.alloc(), trace.events())),
    };
    if simulation.run() {
        Outcome::Ordered(simulation.order)
    } else {
        simulation.stuck()
    }
}

impl Simulation<'_> {
    /// Lets events come: whether all came.
    fn run(&mut self) -> bool {
        let events = self.trace.events();
        for _ in 0..events {
            if self.order.len() >= events {
                break;
            }
            if !self.sweep() {
                match self.best_choice() {
                    Some(chain) => self.take(chain),
                    None => return false,
                }
            }
        }
        true
    }

    /// Lets each chain's next events come as far as nothing is lost by it, and says whether one came.
    fn sweep(&mut self) -> bool {
        let before = self.order.len();
        for chain in 0..self.chains.count() {
            self.advance(chain);
        }
        self.order.len() > before
    }

    /// Lets the next events of a chain come as long as nothing is lost by it.
    fn advance(&mut self, chain: usize) {
        for _ in 0..self.trace.events() {
            match self.next_of(chain) {
                Some(n) if self.is_ready(chain, n) && self.is_safe(n) => self.take(chain),
                _ => return,
            }
        }
    }

    /// The next event of a chain.
    #[inline]
    fn next_of(&self, chain: usize) -> Option<usize> {
        match self.come.get(chain) {
            Some(place) => self.chains.at(chain, *place),
            None => None,
        }
    }

    /// Whether an event is the next of its chain.
    #[inline]
    fn is_next(&self, n: usize) -> bool {
        match self.chains.of(n) {
            Some(chain) => self.next_of(chain) == Some(n),
            None => false,
        }
    }

    /// Whether the next event of a chain can come, that of a swap with its store.
    fn is_ready(&mut self, chain: usize, n: usize) -> bool {
        if !self.is_free(chain, n) {
            return false;
        }
        match self.trace.swap_store(n) {
            Some(store) => self.is_next(store)
                && !self.is_blocked(store, n)
                && self.may_follow(store, n),
            None if self.trace.is_store(n) => !self.is_swap_store(n) && self.may_follow(n, 0),
            None => true,
        }
    }

    /// Whether an event is the store of a swap: that comes with the load.
    fn is_swap_store(&self, n: usize) -> bool {
        self.trace.swap_store(n.saturating_sub(1)).is_some()
    }

    /// Whether no event has to come before the next of a chain.
    fn is_free(&mut self, chain: usize, n: usize) -> bool {
        if self.is_still_blocked(chain) {
            return false;
        }
        let found = self.blocker_of(n, 0);
        if let Some(entry) = self.blockers.get_mut(chain) {
            *entry = found.unwrap_or(0);
        }
        found.is_none()
    }

    /// Whether the event that is known to have to come before the next of a chain hasn't come.
    fn is_still_blocked(&self, chain: usize) -> bool {
        match self.blockers.get(chain) {
            Some(blocker) => *blocker != 0 && self.is_next(*blocker),
            None => false,
        }
    }

    /// Whether an event other than these has to come before the first.
    fn is_blocked(&self, n: usize, besides: usize) -> bool {
        self.blocker_of(n, besides).is_some()
    }

    /// The next event of a chain, other than these two, that has to come before the first.
    fn blocker_of(&self, n: usize, besides: usize) -> Option<usize> {
        for chain in 0..self.chains.count() {
            if let Some(next) = self.next_of(chain)
                && next != n
                && next != besides
                && leads(self.graph, next, n)
            {
                return Some(next);
            }
        }
        None
    }

    /// Whether a store can follow the last store of its address: none of that one's loads is left, but for this one.
    fn may_follow(&self, store: usize, besides: usize) -> bool {
        let latest = self.latest_before(store);
        latest == 0 || self.readers.left_besides(self.trace, latest, besides) == 0
    }

    /// The store that came last of those of a store's address; 0 where none came.
    fn latest_before(&self, store: usize) -> usize {
        match self.trace.event(store) {
            Some(event) => self.latest.get(event.a as usize).copied().unwrap_or(0),
            None => 0,
        }
    }

    /// Whether no order is lost if this event comes, which can: it is a load, or no load of what it writes is left.
    fn is_safe(&self, n: usize) -> bool {
        match self.trace.swap_store(n) {
            Some(store) => self.readers.left(store) == 0,
            None => self.trace.is_load(n) || self.readers.left(n) == 0,
        }
    }

    /// Lets the next event of a chain come, and the store of a swap with its load.
    fn take(&mut self, chain: usize) {
        let Some(n) = self.next_of(chain) else {
            return;
        };
        self.come_next(chain, n);
        if let Some(store) = self.trace.swap_store(n)
            && let Some(other) = self.chains.of(store)
        {
            self.come_next(other, store);
        }
    }

    /// Notes that the next event of a chain has come.
    fn come_next(&mut self, chain: usize, n: usize) {
        if let Some(count) = self.come.get_mut(chain) {
            *count = count.saturating_add(1);
        }
        self.memory.push(&mut self.order, n as u64);
        if self.trace.is_load(n) {
            self.readers.count(self.trace, n);
        } else {
            self.note_store(n);
        }
    }

    /// Notes a store as the last one of its address.
    fn note_store(&mut self, n: usize) {
        if let Some(event) = self.trace.event(n)
            && let Some(entry) = self.latest.get_mut(event.a as usize)
        {
            *entry = n;
        }
    }
}
