//! The derived order as far as it is known: which nodes are done, and what reaches them.
ghost use Rattle.std.specs.Prelude.{◌≡◌};

use crate::edges::Why;
use crate::fronts::Fronts;
use crate::graphs::Graph;
use crate::links::Links;
use crate::notes::Notes;
use crate::numbers::{NONE, item, narrow, put};
use crate::queues::Queue;
use crate::rows::Rows;
use crate::swaps::Swaps;
use search_memory::Memory;

/// A search may do as much as in a log with so many events more.
const EVENTS_MORE: usize = 50_000;

/// Updates of rows of fewer chains count as if they had so many, and those of more chains for several.
const MIN_WIDTH: usize = 32;

const MAX_WIDTH: usize = 512;

/// How many nodes are done before the rules are looked at: rows that grow by several of them are handed on once.
const BATCH: u32 = 256;

/// What a node or an edge counts for that the search for a path comes to, in words of rows; in wide rows half an update.
const VISIT: usize = 64;

/// What a node counts for that is looked at to take it back, in words of rows.
const SCAN: usize = 8;

/// How a violation shows.
#[derive(Clone, Copy)]
pub(crate) enum Closing {
    /// The node comes before itself.
    Node(u32),
    /// The store comes before the load, which read the first value.
    First { store: u32, load: u32 },
    /// The store is the load's processor's, before the load, which read the first value.
    OwnFirst { store: u32, load: u32 },
    /// The load can have read nothing.
    NoSource(u32),
}

/// The nodes that are done, with their rows, and what was found by them.
#[derive(Drop)]
pub(crate) struct Derivation {
    pub(crate) graph: Graph,
    pub(crate) rows: Rows,
    pub(crate) swaps: Swaps,
    /// How a violation shows, if one was found.
    pub(crate) closing: Option<Closing>,
    /// For each node the time since which rows depend on it: 0 where none does.
    since: Vec<u32>,
    /// For each node the last time that its row grew.
    changed: Vec<u32>,
    clock: u32,
    /// Nodes whose rows grew since their rules were looked at.
    pub(crate) queue: Queue,
    pub(crate) links: Links,
    /// What was found, if it is noted: then all nodes are done, and what has the fewest nodes before it is looked at first.
    pub(crate) notes: Notes,
    /// How far the nodes were met then.
    pub(crate) fronts: Fronts,
    /// How many nodes were done since the rules were looked at.
    waiting: u32,
    pub(crate) work: Work,
    /// The nodes that are done, in the order in which they were.
    done: Vec<u32>,
    /// How many operations have their first node among these.
    operations: usize,
    /// Nodes that were taken back, that which was done first on top.
    pub(crate) redo: Vec<u32>,
}

/// How much work was done, and how much is allowed, in words of rows.
#[derive(Clone, Copy)]
pub(crate) struct Work {
    spent: usize,
    budget: usize,
    width: usize,
}

impl Work {
    /// None yet, in a log of so many events, with rows of about so many chains, where so many updates of rows are allowed for
    /// each event.
    pub(crate) fn new(effort: usize, events: usize, width: usize) -> Work {
        let width = width.max(MIN_WIDTH).min(MAX_WIDTH);
        let updates = events.saturating_add(EVENTS_MORE).saturating_mul(effort);
        Work {
            spent: 0,
            budget: updates.saturating_mul(width),
            width,
        }
    }

    /// Counts work.
    #[inline]
    pub(crate) fn spend(&mut self, words: usize) {
        self.spent = self.spent.saturating_add(words);
    }

    /// What so many nodes and edges count for that the search for a path came to.
    pub(crate) fn of_visits(&self, visits: usize) -> usize {
        visits.saturating_mul(VISIT.max(self.width / 2))
    }

    /// How much was done, in updates of rows.
    pub(crate) fn updates(&self) -> usize {
        self.spent.checked_div(self.width).unwrap_or(0)
    }

    /// How much is left.
    pub(crate) fn left(&self) -> usize {
        self.budget.saturating_sub(self.spent)
    }

    /// Whether as much was done as is allowed.
    pub(crate) fn is_spent(&self) -> bool {
        self.spent >= self.budget
    }
}

impl Derivation {
    /// No node is done.
    pub(crate) fn new(memory: &Memory, graph: Graph, work: Work) -> Derivation {
        let nodes = graph.nodes.len();
        Derivation {
            rows: Rows::new(memory, nodes, graph.chains.len()),
            swaps: Swaps::new(memory, &graph.nodes),
            closing: None,
            since: memory.filled(0, nodes),
            changed: memory.filled(0, nodes),
            clock: 0,
            queue: Queue::new(memory, nodes),
            links: Links::new(memory.alloc()),
            notes: Notes::new(memory.alloc()),
            fronts: Fronts::new(memory.alloc()),
            waiting: 0,
            work,
            done: memory.room(nodes),
            operations: 0,
            redo: Vec::new(memory.alloc()),
            graph,
        }
    }

    /// Whether nothing more is looked for now: a violation was found, or work or memory came to its end.
    pub(crate) fn is_stopped(&self, memory: &Memory) -> bool {
        self.closing.is_some() || self.work.is_spent() || memory.is_refused()
    }

    /// How many operations are done: those whose first node is.
    pub(crate) fn operations(&self) -> usize
        ensures { result ≡ self.now.operations }
    {
        self.operations
    }

    /// Whether a node that is done comes before another that is.
    #[inline]
    pub(crate) fn reaches(&self, u: u32, v: u32) -> bool {
        match self.graph.node(u) {
            Some(node) => self.rows.place(v, node.chain) >= node.place,
            None => false,
        }
    }

    /// The node is done: all that follows is looked for, up to a cycle.
    pub(crate) fn finish(&mut self, memory: &Memory, number: u32) {
        self.clock = self.clock.saturating_add(1);
        put(&mut self.graph.ranks, number, self.clock);
        put(&mut self.changed, number, self.clock);
        memory.push(&mut self.done, number);
        if self.graph.begins_operation(number) {
            self.operations = self.operations.saturating_add(1);
        }
        if item(&self.since, number) == 0 {
            put(&mut self.since, number, self.clock);
        }
        self.graph.links_to(memory, number, &mut self.links);
        for k in 0..self.links.len() {
            let Some(link) = self.links.get(k) else {
                break;
            };
            if self.graph.allows(link) {
                self.take(link.node, number);
            }
        }
        self.look_for_cycle(number);
        self.queue(memory, number);
        self.queue_readers(memory, number);
        self.waiting = self.waiting.saturating_add(1);
        if self.waiting >= BATCH {
            self.apply(memory);
        }
    }

    /// The readers of a store that were done before it.
    fn queue_readers(&mut self, memory: &Memory, number: u32) {
        let mut reader = self.graph.first_reader(number);
        for _ in 0..self.graph.nodes.len() {
            let Some(load) = self.graph.node(reader) else {
                break;
            };
            if self.graph.is_done(reader) {
                self.queue(memory, reader);
            }
            reader = load.before;
        }
    }

    /// Notes that `u` and what reaches it reach `v`: whether something of it didn't.
    pub(crate) fn take(&mut self, u: u32, v: u32) -> bool {
        let width = self.rows.width();
        self.work.spend(width);
        let Some(node) = self.graph.node(u) else {
            return false;
        };
        let joined = self.rows.join(u, v);
        let raised = self.rows.raise(v, node.chain, node.place);
        joined || raised
    }

    /// `u` comes before `v`, and both are done.
    pub(crate) fn join(&mut self, memory: &Memory, u: u32, v: u32) {
        if self.take(u, v) {
            put(&mut self.changed, v, self.clock);
            self.look_for_cycle(v);
            if self.is_met(v) {
                self.queue(memory, v);
            }
        }
    }

    /// Whether a node's row is handed on where it grows: of what isn't met yet that follows when it is.
    #[inline]
    pub(crate) fn is_met(&self, number: u32) -> bool {
        !self.notes.is_on() || self.is_before_front(number)
    }

    fn is_before_front(&self, number: u32) -> bool {
        match self.graph.node(number) {
            Some(node) => number < self.fronts.node(node.processor),
            None => false,
        }
    }

    /// Adds an edge to a node that is done, unless there is a path.
    pub(crate) fn infer(&mut self, memory: &Memory, u: u32, v: u32, why: Why) {
        if self.reaches(u, v) || self.notes.is_on() && self.closing.is_some() {
            return;
        }
        if self.graph.is_done(u) {
            self.graph.edges.add(memory, u, v, why, self.clock);
            self.notes.add(memory, u, v, why);
            self.join(memory, u, v);
        } else if !self.graph.edges.has(u, v) {
            self.graph.edges.add(memory, u, v, why, self.clock);
        }
    }

    fn look_for_cycle(&mut self, number: u32) {
        if self.closing.is_none() && self.reaches(number, number) {
            self.closing = Some(Closing::Node(number));
        }
    }

    /// Queues a node, if it isn't queued.
    pub(crate) fn queue(&mut self, memory: &Memory, number: u32) {
        let rank = if self.notes.is_on() {
            self.rows.level(number)
        } else {
            item(&self.graph.ranks, number)
        };
        self.queue.push(memory, rank, number);
    }

    /// Looks at the rules of the nodes whose rows grew, and hands on what reaches them.
    pub(crate) fn apply(&mut self, memory: &Memory) {
        self.waiting = 0;
        for _ in 0..usize::MAX {
            if self.is_stopped(memory) {
                break;
            }
            let Some(number) = self.queue.pop() else {
                break;
            };
            self.apply_rules(memory, number);
            self.hand_on(memory, number);
        }
    }

    fn hand_on(&mut self, memory: &Memory, number: u32) {
        self.graph.links_from(memory, number, &mut self.links);
        let scanned = self.graph.scanned_from(number);
        self.work.spend(scanned.saturating_add(self.links.len()));
        for k in 0..self.links.len() {
            let Some(link) = self.links.get(k) else {
                break;
            };
            if self.graph.allows(link) {
                self.join(memory, number, link.node);
            }
        }
    }

    /// Leaves loads out, and takes back all that was found since the first of them was done.
    pub(crate) fn leave_out(&mut self, memory: &Memory, loads: &[u32]) {
        let mut time = u32::MAX;
        for load in loads {
            let since = item(&self.since, *load);
            if since != 0 {
                time = time.min(since);
            }
            self.graph.leave_out(*load);
        }
        self.take_back(memory, time);
    }

    /// Takes back all that was found since a time.
    fn take_back(&mut self, memory: &Memory, time: u32) {
        self.closing = None;
        self.queue.clear();
        self.graph.edges.forget_from(time);
        let nodes = self.graph.nodes.len();
        self.work.spend(nodes.saturating_mul(SCAN));
        for number in 0..nodes {
            self.forget(memory, narrow(number), time);
        }
        self.take_back_done(memory, time);
        let ranks = &self.graph.ranks;
        self.done.retain(|node| item(ranks, *node) != 0);
    }

    /// Takes back the done nodes whose rows grew since a time, the last one first.
    fn take_back_done(&mut self, memory: &Memory, time: u32) {
        for k in (0..self.done.len()).rev() {
            if let Some(node) = self.done.get(k).copied() {
                self.take_back_node(memory, node, time);
            }
        }
    }

    /// Forgets of a node that it was begun, and since when rows depend on it, if that is since a time.
    fn forget(&mut self, memory: &Memory, node: u32, time: u32) {
        if item(&self.since, node) >= time {
            put(&mut self.since, node, 0);
        }
        if item(&self.graph.ranks, node) == NONE {
            put(&mut self.graph.ranks, node, 0);
            memory.push(&mut self.redo, node);
        }
    }

    /// Takes a done node back whose row grew since a time. What follows from rows that grew shortly before it is looked for
    /// anew, since it may have been found later.
    fn take_back_node(&mut self, memory: &Memory, node: u32, time: u32) {
        let changed = item(&self.changed, node);
        if changed >= time {
            self.work.spend(self.rows.width());
            memory.push(&mut self.redo, node);
            if self.graph.begins_operation(node) {
                self.operations = self.operations.saturating_sub(1);
            }
            put(&mut self.graph.ranks, node, 0);
            put(&mut self.changed, node, 0);
            self.rows.clear(node);
        } else if changed.saturating_add(BATCH) >= time {
            self.queue(memory, node);
        }
    }
}
