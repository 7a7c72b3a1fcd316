//! An order of all stores of a log, made event by event, which keeps what is derived.

use crate::candidates::Candidates;
use crate::deciding::cases::Case;
use crate::eliminations::Elimination;
use crate::graphs::Graph;
use crate::nodes::{FIRST, Kind, Node};
use crate::numbers::{NONE, count, item, narrow, put};
use crate::rows::Rows;
use search_memory::Memory;

mod choices;
mod stuck;

/// So many times a simulation goes back to another choice.
const MOST_RETURNS: usize = 1_000;

/// How a simulation ended.
#[derive(Debug, Drop)]
pub(crate) enum Outcome {
    /// With this order of all stores.
    Ordered(Vec<u32>),
    /// No event could come next, whatever came before: this case is to be looked at.
    Stuck(Case),
    /// No event could come next, and nothing is to be looked at.
    Lost,
}

/// A node that came, and of a store the last store to its address before it, or `FIRST`.
#[derive(Clone, Copy)]
struct Came {
    number: u32,
    before: u32,
}

/// What came by a choice: how many nodes had come before, and the chains whose next members could have come too, the best one last.
#[derive(Debug, Drop)]
struct Choice {
    came: usize,
    others: Vec<u32>,
}

/// The nodes that have come, and what may come next.
#[derive(Drop)]
pub(crate) struct Simulation<'a> {
    memory: &'a Memory,
    graph: &'a Graph,
    rows: &'a Rows,
    candidates: &'a Candidates,
    /// How many members of each chain have come.
    come: Vec<u32>,
    /// For each chain a place of another one that has to come before its next member, as far as one is known.
    blockers: Vec<(u32, u32)>,
    /// The store to each address that came last, or `FIRST`.
    latest: Vec<u32>,
    /// How many of the loads that are known to have read a store haven't come.
    readers: Vec<u32>,
    /// Of each class of values how many loads haven't come whose sources aren't known.
    wanting: Vec<u32>,
    /// The stores that have come, in their order.
    stores: Vec<u32>,
    /// How many nodes haven't come.
    left: usize,
    /// The nodes that have come, in their order.
    trail: Vec<Came>,
    /// What came by choices that can be changed.
    choices: Vec<Choice>,
    /// How often it went back.
    returns: usize,
    /// The case to look at where the fewest nodes were left, and how many were.
    stuck: Option<Case>,
    least_left: usize,
}

/// Lets all nodes come in an order that keeps what an elimination derived, loads as soon as they can, stores once no load of the
/// store before is left.
pub(crate) fn simulate(memory: &Memory, elimination: &Elimination) -> Outcome {
    let graph = &elimination.derivation.graph;
    let nodes = graph.nodes.len();
    let candidates = &elimination.candidates;
    let mut simulation = Simulation {
        memory,
        graph,
        rows: &elimination.derivation.rows,
        candidates,
        come: memory.filled(0, graph.chains.len()),
        blockers: memory.filled((0, 0), graph.chains.len()),
        latest: memory.filled(FIRST, graph.addresses()),
        readers: memory.filled(0, nodes),
        wanting: memory.filled(0, candidates.classes()),
        stores: memory.room(nodes),
        left: nodes,
        trail: memory.room(nodes),
        choices: Vec::new(memory.alloc()),
        returns: 0,
        stuck: None,
        least_left: usize::MAX,
    };
    simulation.count_loads();
    if simulation.run() {
        return Outcome::Ordered(simulation.stores);
    }
    match simulation.stuck {
        Some(case) => Outcome::Stuck(case),
        None => Outcome::Lost,
    }
}

impl Simulation<'_> {
    /// Counts the loads of each store, and those whose sources aren't known.
    fn count_loads(&mut self) {
        for number in 0..self.graph.nodes.len() {
            let load = narrow(number);
            match self.graph.node(load) {
                Some(node) if node.is_open() => {
                    count(&mut self.wanting, self.candidates.class_number(load));
                }
                Some(node) if node.is_load() => {
                    count(&mut self.readers, node.source);
                }
                _ => {}
            }
        }
    }

    /// Lets nodes come, and goes back where none can: whether all came.
    fn run(&mut self) -> bool {
        for _ in 0..usize::MAX {
            if self.left == 0 || self.memory.is_refused() {
                break;
            }
            if self.sweep() || self.choose() {
                continue;
            }
            self.note_stuck();
            if !self.choose_another() {
                break;
            }
        }
        self.left == 0
    }

    /// Lets the next members of each chain come as far as nothing is lost by it: whether some came.
    fn sweep(&mut self) -> bool {
        let before = self.left;
        for chain in 0..narrow(self.graph.chains.len()) {
            self.advance(chain);
        }
        self.left < before
    }

    /// Lets the next members of a chain come as long as nothing is lost by it.
    fn advance(&mut self, chain: u32) {
        for _ in 0..self.graph.nodes.len() {
            match self.next_of(chain) {
                Some(number) if self.is_ready(chain, number) && self.is_safe(number) => {
                    self.take_next(chain);
                }
                _ => return,
            }
        }
    }

    /// The next member of a chain.
    #[inline]
    fn next_of(&self, chain: u32) -> Option<u32> {
        let place = item(&self.come, chain).saturating_add(1);
        self.graph.chains.member(chain, place)
    }

    /// Whether the next member of a chain can come, a swap's load with its store.
    fn is_ready(&mut self, chain: u32, number: u32) -> bool {
        let Some(node) = self.graph.node(number) else {
            return false;
        };
        match node.kind {
            Kind::SwapStore => false,
            Kind::Stbar => self.is_free(chain, number, NONE),
            Kind::Load => self.is_free(chain, number, NONE) && self.reads_right(number, node),
            Kind::Store | Kind::LoneSwapStore => {
                self.is_free(chain, number, NONE) && self.may_follow(node, 0)
            }
            Kind::SwapLoad => {
                self.is_free(chain, number, NONE)
                    && self.reads_right(number, node)
                    && self.is_swap_free(chain, number, node)
            }
        }
    }

    /// Whether the store of a swap can come right behind its load, which is the next member of a chain.
    fn is_swap_free(&mut self, chain: u32, load: u32, node: Node) -> bool {
        let number = load.saturating_add(1);
        let Some(store) = self.graph.node(number) else {
            return false;
        };
        let own = u32::from(!node.is_open());
        self.is_free(store.chain, number, chain) && self.may_follow(store, own)
    }

    /// Whether all that comes before the next member of a chain has come, but for the next member of one chain.
    fn is_free(&mut self, chain: u32, number: u32, besides: u32) -> bool {
        let blocker = self.blockers.get(chain as usize).copied();
        if let Some((other, place)) = blocker
            && self.is_left(other, place, besides)
        {
            return false;
        }
        for other in 0..narrow(self.rows.width()) {
            let place = self.rows.place(number, other);
            if self.is_left(other, place, besides) {
                if let Some(blocker) = self.blockers.get_mut(chain as usize) {
                    *blocker = (other, place);
                }
                return false;
            }
        }
        true
    }

    /// Whether a place of a chain hasn't come, but for the next one of one chain.
    #[inline]
    fn is_left(&self, chain: u32, place: u32, besides: u32) -> bool {
        let come = item(&self.come, chain).saturating_add(u32::from(chain == besides));
        place > come
    }

    /// Whether a load would read what it read.
    fn reads_right(&self, number: u32, node: Node) -> bool {
        let seen = if node.own != NONE && !self.has_come(node.own) {
            node.own
        } else {
            item(&self.latest, node.address)
        };
        if !node.is_open() {
            return node.source == seen;
        }
        let class = self.candidates.class_number(number);
        if seen == FIRST {
            self.candidates.has_first(number, false)
        } else {
            class != NONE && class == self.candidates.class_number(seen)
        }
    }

    fn has_come(&self, number: u32) -> bool {
        match self.graph.node(number) {
            Some(node) => item(&self.come, node.chain) >= node.place,
            None => true,
        }
    }

    /// Whether a store can follow the last store to its address: at most so many of that one's loads haven't come.
    fn may_follow(&self, store: Node, own: u32) -> bool {
        let latest = item(&self.latest, store.address);
        latest == FIRST || item(&self.readers, latest) <= own
    }

    /// Whether no order is lost where the next member of a chain comes, which can: it is no store, or no load needs what memory
    /// has before it, and none of its own is left.
    fn is_safe(&self, number: u32) -> bool {
        match self.store_of(number) {
            Some((number, store)) => {
                item(&self.readers, number) == 0 && self.lost_by(number, store) == 0
            }
            None => true,
        }
    }

    /// The store that comes with a node, if one does.
    fn store_of(&self, number: u32) -> Option<(u32, Node)> {
        let node = self.graph.node(number)?;
        match node.kind {
            Kind::Load | Kind::Stbar => None,
            Kind::Store | Kind::SwapStore | Kind::LoneSwapStore => Some((number, node)),
            Kind::SwapLoad => {
                let number = number.saturating_add(1);
                Some((number, self.graph.node(number)?))
            }
        }
    }

    /// How many loads whose sources aren't known, and which haven't come, can have read what memory has where this store comes.
    fn lost_by(&self, number: u32, store: Node) -> u32 {
        let latest = item(&self.latest, store.address);
        if latest == FIRST {
            return 0;
        }
        let class = self.candidates.class_number(latest);
        if class == NONE || class == self.candidates.class_number(number) {
            0
        } else {
            item(&self.wanting, class)
        }
    }

    /// Lets the next member of a chain come, and the store of a swap with its load.
    fn take_next(&mut self, chain: u32) {
        let Some(number) = self.next_of(chain) else {
            return;
        };
        self.take(number);
        if self.graph.is_swap_load(number) {
            self.take(number.saturating_add(1));
        }
    }

    fn take(&mut self, number: u32) {
        let Some(node) = self.graph.node(number) else {
            return;
        };
        let before = item(&self.latest, node.address);
        self.memory.push(&mut self.trail, Came { number, before });
        count(&mut self.come, node.chain);
        self.left = self.left.saturating_sub(1);
        if node.is_store() {
            put(&mut self.latest, node.address, number);
            self.memory.push(&mut self.stores, number);
        } else if node.is_open() {
            lower(&mut self.wanting, self.candidates.class_number(number));
        } else if node.is_load() {
            lower(&mut self.readers, node.source);
        }
    }

    /// Takes back what came after so many nodes.
    fn take_back(&mut self, came: usize) {
        for _ in came..self.trail.len() {
            if let Some(last) = self.trail.pop() {
                self.take_back_one(last);
            }
        }
    }

    fn take_back_one(&mut self, last: Came) {
        let Some(node) = self.graph.node(last.number) else {
            return;
        };
        lower(&mut self.come, node.chain);
        if let Some(blocker) = self.blockers.get_mut(node.chain as usize) {
            *blocker = (0, 0);
        }
        self.left = self.left.saturating_add(1);
        if node.is_store() {
            put(&mut self.latest, node.address, last.before);
            self.stores.pop();
        } else if node.is_open() {
            count(&mut self.wanting, self.candidates.class_number(last.number));
        } else if node.is_load() {
            count(&mut self.readers, node.source);
        }
    }
}

/// Takes 1 from the item at an index.
fn lower(items: &mut [u32], index: u32) {
    put(items, index, item(items, index).saturating_sub(1));
}
