//! The nodes of a log, with what is known of them before the search.

use crate::chains::make_chains;
use crate::edges::Edges;
use crate::graphs::Graph;
use crate::groups::make_groups;
use crate::lookups::{number_of, source_of};
use crate::nodes::{FIRST, Kind, Node, OPEN, node_at};
use crate::numbers::{NONE, item, narrow, put};
use crate::surveys::{Addresses, Survey};
use log_selections::KnownLog;
use log_text::{LogOperation, LoggedOperation};
use search_memory::Memory;
use tso_ops::Order;

/// The nodes while they are listed.
#[derive(Drop)]
struct Listing {
    nodes: Vec<Node>,
    firsts: Vec<u32>,
    /// The node of each event by its number, or `NONE`.
    by_number: Vec<u32>,
    /// Barriers: each one's processor's last node before it, and its index.
    membars: Vec<(u32, u32)>,
}

/// What nodes are listed of.
#[derive(Clone, Copy)]
pub(crate) struct Scope<'a> {
    pub(crate) known: &'a KnownLog,
    pub(crate) survey: &'a Survey,
    pub(crate) addresses: Addresses,
    /// Whether loads of all sources are listed, as if none of these were known.
    pub(crate) is_open: bool,
}

/// Lists the nodes of a log at some of its addresses, with their chains, groups and first edges.
pub(crate) fn build(memory: &Memory, scope: Scope<'_>) -> Graph {
    let listing = list_nodes(memory, scope);
    let membars = listing.membars;
    let mut nodes = listing.nodes;
    let log = scope.known.log();
    let addresses = scope.addresses.len();
    let chains = make_chains(memory, log.order, addresses, log.lists.len(), &mut nodes);
    let groups = make_groups(memory, addresses, &mut nodes);
    find_own_stores(memory, addresses, &mut nodes);
    let mut graph = Graph {
        order: log.order,
        chains,
        groups,
        edges: Edges::new(memory, nodes.len()),
        ranks: memory.filled(0, nodes.len()),
        nodes,
        firsts: listing.firsts,
    };
    graph.add_membars(memory, &membars);
    if !scope.is_open {
        graph.add_own(memory);
    }
    graph.add_stbars(memory);
    graph
}

fn list_nodes(memory: &Memory, scope: Scope<'_>) -> Listing {
    let mut listing = Listing {
        nodes: Vec::new(memory.alloc()),
        firsts: Vec::new(memory.alloc()),
        by_number: memory.filled(NONE, scope.known.sources().len()),
        membars: Vec::new(memory.alloc()),
    };
    for (processor, list) in scope.known.log().lists.iter().enumerate() {
        listing.begin_list(memory);
        listing.push_list(memory, scope, processor, list);
    }
    listing.begin_list(memory);
    if scope.is_open {
        listing.forget_sources();
    } else {
        listing.find_sources(scope.known);
    }
    listing.by_number = Vec::new(memory.alloc());
    listing
}

impl Listing {
    /// Notes that the nodes of the next processor begin here.
    fn begin_list(&mut self, memory: &Memory) {
        memory.push(&mut self.firsts, narrow(self.nodes.len()));
    }

    fn push_list(
        &mut self,
        memory: &Memory,
        scope: Scope<'_>,
        processor: usize,
        list: &[LoggedOperation],
    ) {
        for (operation, logged) in list.iter().enumerate() {
            let node = Node::new(narrow(processor), narrow(operation), Kind::Load, NONE);
            let number = number_of(scope.known, processor, operation).unwrap_or(0);
            self.push_operation(memory, scope, number, node, logged.operation);
        }
    }

    /// Pushes the nodes of an operation of this number.
    fn push_operation(
        &mut self,
        memory: &Memory,
        scope: Scope<'_>,
        number: usize,
        node: Node,
        operation: LogOperation,
    ) {
        match operation {
            LogOperation::Mb => {
                let place = narrow(self.nodes.len());
                memory.push(&mut self.membars, (place, node.operation));
            }
            LogOperation::Sb => self.push_stbar(memory, scope.known.log().order, node),
            _ => {
                if let Some(address) = scope.addresses.place(scope.survey.address(number)) {
                    let node = Node { address, ..node };
                    self.push_access(memory, scope, number, node, operation);
                }
            }
        }
    }

    /// Pushes the nodes of a load, a store or a swap.
    fn push_access(
        &mut self,
        memory: &Memory,
        scope: Scope<'_>,
        number: usize,
        node: Node,
        operation: LogOperation,
    ) {
        let store = number.saturating_add(1);
        match operation {
            LogOperation::Ld { .. } if scope.survey.keeps(number) => {
                self.push(memory, number, node, Kind::Load);
            }
            LogOperation::St { .. } => self.push(memory, number, node, Kind::Store),
            LogOperation::Sw { .. } if scope.is_open || source_of(scope.known, number).is_some() =>
                {
                    self.push(memory, number, node, Kind::SwapLoad);
                    self.push(memory, store, node, Kind::SwapStore);
                }
            LogOperation::Sw { .. } => self.push(memory, store, node, Kind::LoneSwapStore),
            LogOperation::Ld { .. } | LogOperation::Mb | LogOperation::Sb => {}
        }
    }

    fn push(&mut self, memory: &Memory, number: usize, node: Node, kind: Kind) {
        let source = narrow(number);
        put(&mut self.by_number, source, narrow(self.nodes.len()));
        memory.push(
            &mut self.nodes,
            Node {
                source,
                kind,
                ..node
            },
        );
    }

    /// Pushes an STBAR where one says something: under PSO, after another node of its processor.
    fn push_stbar(&mut self, memory: &Memory, order: Order, node: Node) {
        if order == Order::Pso
            && let Some(last) = self.nodes.last()
            && last.processor == node.processor
            && last.kind != Kind::Stbar
        {
            let kind = Kind::Stbar;
            memory.push(&mut self.nodes, Node { kind, ..node });
        }
    }

    /// Writes the node of each load's source, in place of the number of the load, and links the readers of each store.
    fn find_sources(&mut self, known: &KnownLog) {
        for number in 0..self.nodes.len() {
            let load = narrow(number);
            if let Some(node) = node_at(&self.nodes, load)
                && node.is_load()
            {
                let source = match source_of(known, node.source as usize) {
                    None => NONE,
                    Some(0) => FIRST,
                    Some(source) => item(&self.by_number, narrow(source)),
                };
                self.link(load, source);
            }
        }
        self.end_readers();
    }

    /// No load's source is known yet, and so no store's readers.
    fn forget_sources(&mut self) {
        for node in self.nodes.iter_mut() {
            node.source = if node.is_load() { OPEN } else { NONE };
        }
    }

    fn link(&mut self, load: u32, source: u32) {
        let mut next = NONE;
        if let Some(store) = self.nodes.get_mut(source as usize) {
            // A store that has no reader yet has its own number there; `before` isn't used yet.
            next = store.before;
            store.before = load;
        }
        if let Some(node) = self.nodes.get_mut(load as usize) {
            node.source = source;
            node.before = next;
        }
    }

    /// Moves the first reader of each store to where it belongs.
    fn end_readers(&mut self) {
        for node in self.nodes.iter_mut() {
            if node.is_store() {
                node.source = node.before;
                node.before = NONE;
            }
        }
    }
}

/// Writes for each load its processor's last store to its address before it.
fn find_own_stores(memory: &Memory, addresses: usize, nodes: &mut [Node]) {
    // For each address the last store, and its processor.
    let mut stores = memory.filled(NONE, addresses);
    let mut processors = memory.filled(NONE, addresses);
    for (number, node) in nodes.iter_mut().enumerate() {
        if node.is_store() {
            put(&mut stores, node.address, narrow(number));
            put(&mut processors, node.address, node.processor);
        } else if node.is_load() && item(&processors, node.address) == node.processor {
            node.own = item(&stores, node.address);
        }
    }
}
