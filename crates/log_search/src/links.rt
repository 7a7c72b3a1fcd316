//! The edges at a node, those that are kept in no list among them.

use crate::edges::{KeptEdge, Why};
use crate::graphs::Graph;
use crate::nodes::{FIRST, Kind, Node};
use crate::numbers::NONE;
use search_memory::Memory;
use std::alloc::Global;
use tso_ops::Order;

/// An edge to a node, or from it.
#[derive(Clone, Copy)]
pub(crate) struct Link {
    /// The node at its other end.
    pub(crate) node: u32,
    /// Why there is one.
    pub(crate) why: Why,
    /// One more than its number where it is kept in a list, else 0.
    pub(crate) number: u32,
}

/// Links, and whether memory for one was refused.
#[derive(Drop)]
pub(crate) struct Links {
    links: Vec<Link>,
    is_refused: bool,
}

impl Links {
    /// None yet.
    pub(crate) fn new(alloc: Global) -> Links {
        Links {
            links: Vec::new(alloc),
            is_refused: false,
        }
    }

    /// How many there are.
    pub(crate) fn len(&self) -> usize {
        self.links.len()
    }

    /// The link at an index.
    pub(crate) fn get(&self, index: usize) -> Option<Link> {
        self.links.get(index).copied()
    }

    fn push(&mut self, link: Link) {
        if self.links.push(link).is_err() {
            self.is_refused = true;
        }
    }

    /// Adds an edge that is kept in no list.
    fn add(&mut self, node: u32, why: Why) {
        self.push(Link {
            node,
            why,
            number: 0,
        });
    }

    /// Adds such an edge, if there is a node at its other end.
    fn add_some(&mut self, node: Option<u32>, why: Why) {
        if let Some(node) = node {
            self.add(node, why);
        }
    }

    /// Adds the edge of this number, which is kept in a list.
    fn add_kept(&mut self, node: u32, why: Why, number: u32) {
        self.push(Link {
            node,
            why,
            number: number.saturating_add(1),
        });
    }
}

impl Graph {
    /// The edges to a node.
    pub(crate) fn links_to(&self, memory: &Memory, number: u32, links: &mut Links) {
        links.links.clear();
        if let Some(node) = self.node(number) {
            links.add_some(self.chains.before(node), Why::Chain);
            if node.is_live_load() {
                self.add_links_to_load(number, node, links);
            } else if node.is_store() {
                self.add_links_to_store(number, node, links);
            }
            self.add_kept_to(number, links);
        }
        memory.note(links.is_refused);
    }

    fn add_links_to_load(&self, number: u32, load: Node, links: &mut Links) {
        if self.is_seen_by_order(load.source, number, load) {
            links.add(load.source, Why::Read);
        }
        if load.kind == Kind::SwapLoad
            && let Some(store) = self.node(number.saturating_add(1))
        {
            links.add_some(self.chains.before(store), Why::SwapBefore(number));
        }
    }

    /// Whether a load can see its source, a store, only where that comes before it.
    fn is_seen_by_order(&self, source: u32, load: u32, node: Node) -> bool {
        match self.node(source) {
            Some(store) => store.processor != node.processor || source > load,
            None => false,
        }
    }

    fn add_links_to_store(&self, number: u32, store: Node, links: &mut Links) {
        match self.order {
            Order::Tso => self.add_load_before(number, store, links),
            Order::Pso => {
                links.add_some(self.chains.load_before(store), Why::LoadOp);
                links.add_some(self.chains.stbar_before(store), Why::Stbar);
            }
        }
        let mut reader = match self.node(store.before) {
            Some(before) => before.source,
            None => self.groups.first_reader(store.address),
        };
        for _ in 0..self.nodes.len() {
            let Some(load) = self.node(reader) else {
                break;
            };
            if load.is_live_load() {
                links.add(reader, Why::StorePast(reader));
            }
            reader = load.before;
        }
    }

    /// The node before a store, if that is a load of its processor: loads further before come before the store's neighbour in
    /// its chain too.
    fn add_load_before(&self, number: u32, store: Node, links: &mut Links) {
        let before = number.saturating_sub(1);
        if let Some(load) = self.node(before)
            && load.processor == store.processor
            && load.is_load()
        {
            links.add(before, Why::LoadOp);
        }
    }

    fn add_kept_to(&self, node: u32, links: &mut Links) {
        let mut at = self.edges.last_to(node);
        for _ in 0..self.edges.len() {
            let Some(edge) = self.edges.get(at) else {
                break;
            };
            if self.holds(edge) {
                links.add_kept(edge.u, edge.why, at);
            }
            at = edge.next_to;
        }
    }

    /// Whether the load that an edge needs isn't left out. Under PSO a barrier's edge needs the load that it leads to, since
    /// by it the store comes before later stores.
    fn holds(&self, edge: KeptEdge) -> bool {
        let load = match edge.why {
            Why::Membar(_) if self.order == Order::Pso => Some(edge.v),
            why => why.load(),
        };
        match load {
            Some(load) => match self.node(load) {
                Some(node) => node.is_live_load(),
                None => false,
            },
            None => true,
        }
    }

    /// Whether a link may be used now: its other end is done, and, if it is of the rule Own, the load that it needs too, so
    /// that all that follows from the load is found later than the load is done.
    pub(crate) fn allows(&self, link: Link) -> bool {
        self.is_done(link.node)
            && match link.why {
                Why::Own(load) => self.is_done(load),
                _ => true,
            }
    }

    /// The edges from a node.
    pub(crate) fn links_from(&self, memory: &Memory, number: u32, links: &mut Links) {
        links.links.clear();
        if let Some(node) = self.node(number) {
            if let Some(after) = self.chains.after(node) {
                links.add(after, Why::Chain);
                self.add_swap_after(after, links);
            }
            match node.kind {
                Kind::Load | Kind::SwapLoad => self.add_links_from_load(number, node, links),
                Kind::Store | Kind::SwapStore | Kind::LoneSwapStore => {
                    self.add_readers(number, node, links);
                }
                Kind::Stbar => self.add_stores_from(number, node, links),
            }
            self.add_kept_from(number, links);
        }
        memory.note(links.is_refused);
    }

    /// The load of a swap whose store comes next in the chain of a store.
    fn add_swap_after(&self, after: u32, links: &mut Links) {
        if let Some(next) = self.node(after)
            && next.kind == Kind::SwapStore
        {
            let load = after.saturating_sub(1);
            links.add(load, Why::SwapBefore(load));
        }
    }

    fn add_links_from_load(&self, number: u32, load: Node, links: &mut Links) {
        self.add_stores_from(number, load, links);
        if load.source == FIRST {
            let (start, end) = self.groups.range(load.address);
            for index in start..end {
                let Some(group) = self.groups.get(index) else {
                    break;
                };
                let place = self.groups.first_place(group);
                let store = self.chains.member(group.chain, place);
                links.add_some(store, Why::StorePast(number));
            }
        } else if let Some(source) = self.node(load.source)
            && source.own != NONE
        {
            links.add(source.own, Why::StorePast(number));
        }
    }

    /// The stores after a load or an STBAR up to the next one: under TSO the next node, if it is one.
    fn add_stores_from(&self, number: u32, from: Node, links: &mut Links) {
        let why = if from.is_load() {
            Why::LoadOp
        } else {
            Why::Stbar
        };
        let end = self.nodes_of(from.processor).1;
        for after in number.saturating_add(1)..end {
            let Some(node) = self.node(after) else {
                break;
            };
            if node.is_store() {
                links.add(after, why);
            }
            let is_next = !node.is_store() && from.is_load() == node.is_load();
            if is_next || self.order == Order::Tso {
                break;
            }
        }
    }

    /// How many nodes are looked at to find the stores after a load or an STBAR under PSO.
    pub(crate) fn scanned_from(&self, number: u32) -> usize {
        let Some(node) = self.node(number) else {
            return 0;
        };
        if self.order == Order::Tso || node.is_store() {
            return 0;
        }
        let end = match self.chains.after(node) {
            Some(next) => next,
            None => self.nodes_of(node.processor).1,
        };
        end.saturating_sub(number) as usize
    }

    fn add_readers(&self, number: u32, store: Node, links: &mut Links) {
        let mut reader = store.source;
        for _ in 0..self.nodes.len() {
            let Some(load) = self.node(reader) else {
                break;
            };
            if load.is_live_load() && self.is_seen_by_order(number, reader, load) {
                links.add(reader, Why::Read);
            }
            reader = load.before;
        }
    }

    fn add_kept_from(&self, node: u32, links: &mut Links) {
        let mut at = self.edges.last_from(node);
        for _ in 0..self.edges.len() {
            let Some(edge) = self.edges.get(at) else {
                break;
            };
            if self.holds(edge) {
                links.add_kept(edge.v, edge.why, at);
            }
            at = edge.next_from;
        }
    }
}
