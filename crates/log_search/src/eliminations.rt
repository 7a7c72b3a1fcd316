//! Sources by elimination: nodes are met in the order of levels, and loads are looked at when something may have changed for
//! them, until each can have read several.

use crate::candidates::Candidates;
use crate::derivation::{Closing, Derivation};
use crate::glances::Pair;
use crate::looks::Looks;
use crate::nodes::{FIRST, Kind, Node, node_at};
use crate::numbers::NONE;
use crate::watches::{Watches, covers};
use progress_meters::Meter;
use search_memory::Memory;

/// So many nodes are met before loads whose source isn't known yet are looked at.
const WINDOW: u32 = 512;

/// When what a source tells is handed on.
#[derive(Clone, Copy, PartialEq, Eq)]
pub(crate) enum Pace {
    /// Once all loads were looked at for which something may have changed.
    Many,
    /// At once.
    One,
}

/// The derived order, and the loads whose sources aren't known yet.
#[derive(Drop)]
pub(crate) struct Elimination {
    pub(crate) derivation: Derivation,
    pub(crate) candidates: Candidates,
    pub(crate) looks: Looks,
    pub(crate) watches: Watches,
    pace: Pace,
    bound: u32,
    /// The loads that were met which can have read several by their values.
    pub(crate) open: Vec<u32>,
    /// Those of them that are the last swaps.
    pub(crate) swaps: Vec<u32>,
}

impl Elimination {
    /// Nothing is known but what the program says.
    pub(crate) fn new(
        memory: &Memory,
        mut derivation: Derivation,
        candidates: Candidates,
        pace: Pace,
    ) -> Elimination {
        derivation.begin_waves(memory);
        Elimination {
            watches: Watches::new(memory, derivation.graph.nodes.len(), candidates.classes()),
            derivation,
            candidates,
            pace,
            looks: Looks::new(memory.alloc()),
            bound: 0,
            open: Vec::new(memory.alloc()),
            swaps: Vec::new(memory.alloc()),
        }
    }

    /// Finds what it can, up to a violation or the end of the budget. The meter hears of the operations that are met.
    pub(crate) fn run<M: Meter>(&mut self, memory: &Memory, meter: &M) {
        for _ in 0..usize::MAX {
            if self.derivation.is_stopped(memory) || !self.raise_bound(memory) {
                break;
            }
            self.advance(memory, meter);
            self.settle(memory);
            self.agree_on_swaps(memory);
        }
        self.finish(memory);
    }

    /// Sets how far the nodes are met next: whether some are left.
    fn raise_bound(&mut self, memory: &Memory) -> bool {
        let fronts = &mut self.derivation.fronts;
        if fronts.first_level().is_none()
            && let Some(processor) = fronts.free_one()
        {
            fronts.push(memory, self.bound, processor);
        }
        match fronts.first_level() {
            Some(level) => {
                self.bound = self.bound.max(level).saturating_add(WINDOW);
                true
            }
            None => false,
        }
    }

    /// Meets the nodes up to the bound.
    fn advance<M: Meter>(&mut self, memory: &Memory, meter: &M) {
        for _ in 0..usize::MAX {
            self.drain(memory);
            if self.derivation.is_stopped(memory) {
                break;
            }
            let Some(processor) = self.next_front(memory) else {
                break;
            };
            self.meet_front(memory, processor, meter);
        }
    }

    /// The processor whose front is met next.
    fn next_front(&mut self, memory: &Memory) -> Option<u32> {
        for _ in 0..usize::MAX {
            let Some(level) = self.derivation.fronts.first_level() else {
                return None;
            };
            if level > self.bound {
                return None;
            }
            let Some(processor) = self.derivation.fronts.pop() else {
                return None;
            };
            let number = self.derivation.fronts.node(processor);
            let now = self.derivation.rows.level(number);
            if now > level {
                self.derivation.fronts.push(memory, now, processor);
            } else if let Some(store) = self.awaited_by(number, processor) {
                self.derivation.fronts.wait(processor, store);
            } else {
                return Some(processor);
            }
        }
        None
    }

    /// The store that a processor's front waits for: the one that it read by the values alone, if that wasn't met yet.
    fn awaited_by(&self, number: u32, processor: u32) -> Option<u32> {
        let Some(node) = self.derivation.graph.node(number) else {
            return None;
        };
        if !node.is_open() || self.derivation.fronts.is_free(processor) {
            return None;
        }
        let part = self.candidates.only_part(number)?;
        let place = self.candidates.place(part.start);
        let store = self.derivation.graph.chains.member(part.chain, place)?;
        let is_own = match self.derivation.graph.node(store) {
            Some(node) => node.processor == processor,
            None => true,
        };
        if is_own || self.derivation.is_met(store) {
            None
        } else {
            Some(store)
        }
    }

    /// Meets the front of a processor, of a swap both its load and its store.
    fn meet_front<M: Meter>(&mut self, memory: &Memory, processor: u32, meter: &M) {
        let number = self.derivation.fronts.node(processor);
        self.meet(memory, number, processor, meter);
        if self.derivation.graph.is_swap_load(number) {
            self.drain(memory);
            self.meet(memory, number.saturating_add(1), processor, meter);
        }
        let front = self.derivation.fronts.node(processor);
        if front < self.derivation.graph.nodes_of(processor).1 {
            let level = self.derivation.rows.level(front);
            self.derivation.fronts.push(memory, level, processor);
        }
    }

    /// Meets a node: if it is a load that can have read one thing alone by its value, that is its source.
    fn meet<M: Meter>(&mut self, memory: &Memory, number: u32, processor: u32, meter: &M) {
        self.derivation.fronts.advance(processor);
        if self.derivation.graph.begins_operation(number) {
            meter.advance(1);
        }
        if is_open(&self.derivation.graph.nodes, number) {
            if self.candidates.count(number) > 1 {
                memory.push(&mut self.open, number);
                if self.derivation.graph.is_swap_load(number) {
                    memory.push(&mut self.swaps, number);
                }
                self.watches.wake(memory, &self.derivation, number);
            } else {
                self.look(memory, number);
            }
        }
        if !self.derivation.queue.has(number) {
            self.pass(memory, number);
        }
        self.end_waiting(memory, number);
    }

    /// The processors whose fronts waited for a store go on.
    fn end_waiting(&mut self, memory: &Memory, store: u32) {
        let fronts = &mut self.derivation.fronts;
        for _ in 0..usize::MAX {
            let Some(processor) = fronts.end_waiting(store) else {
                break;
            };
            let level = self.derivation.rows.level(fronts.node(processor));
            fronts.push(memory, level, processor);
        }
    }

    /// Hands on what grew.
    fn drain(&mut self, memory: &Memory) {
        for _ in 0..usize::MAX {
            if self.derivation.is_stopped(memory) {
                break;
            }
            let Some(number) = self.derivation.next_grown(memory) else {
                break;
            };
            self.pass(memory, number);
        }
    }

    /// What follows from a node's row, and who is to be looked at since it grew.
    fn pass(&mut self, memory: &Memory, number: u32) {
        self.derivation.pass(memory, number);
        self.watches.wake_at(memory, &self.derivation, number);
        if is_open(&self.derivation.graph.nodes, number) {
            self.watches.wake_grown(memory, &self.derivation, number);
        }
    }

    /// Looks at loads for which something may have changed, until there are none. Swaps come first: what they read orders most.
    pub(crate) fn settle(&mut self, memory: &Memory) {
        for _ in 0..usize::MAX {
            self.drain(memory);
            if self.watches.is_quiet() || self.derivation.is_stopped(memory) {
                break;
            }
            if !self.look_at_woken(memory, true) {
                self.look_at_woken(memory, false);
            }
        }
    }

    /// Looks at swaps' loads, or at all other loads, that were woken: whether something is known of one now.
    fn look_at_woken(&mut self, memory: &Memory, is_swap: bool) -> bool {
        let mut is_new = false;
        for index in 0..usize::MAX {
            let Some(load) = self.watches.woken_at(is_swap, index) else {
                break;
            };
            if self.derivation.is_stopped(memory) {
                break;
            }
            if is_open(&self.derivation.graph.nodes, load) && self.look(memory, load) {
                is_new = true;
                if self.pace == Pace::One {
                    self.drain(memory);
                }
            }
        }
        self.watches.forget_woken(is_swap);
        is_new
    }

    /// Looks at a load: whether its source is known now, or that it has none.
    fn look(&mut self, memory: &Memory, load: u32) -> bool {
        let from = self.watches.watched(load).part;
        let derivation = &mut self.derivation;
        let pair = self
            .looks
            .glance(memory, derivation, &mut self.candidates, load, from);
        if pair.first == NONE {
            self.derivation.closing = Some(Closing::NoSource(load));
            return true;
        }
        if pair.second == NONE && self.may_learn(load, pair.first) {
            self.learn(memory, load, pair.first);
            return true;
        }
        self.watch(memory, load, pair);
        false
    }

    /// Whether a source that is the only one left is one that was met, or the only one by the values.
    fn may_learn(&self, load: u32, source: u32) -> bool {
        source == FIRST || self.derivation.is_met(source) || self.candidates.count(load) == 1
    }

    /// A load waits for what says more of what it can have read.
    fn watch(&mut self, memory: &Memory, load: u32, pair: Pair) {
        let Some(node) = self.derivation.graph.node(load) else {
            return;
        };
        if node.kind == Kind::SwapLoad && pair.first == FIRST {
            let class = self.candidates.class_number(load);
            self.watches.watch_first(memory, load, class);
        }
        self.watches.watch(memory, load, node, pair);
        let is_before = covers(&self.derivation, load, pair.first)
            || covers(&self.derivation, load, pair.second);
        if is_before {
            self.watch_seen(memory, load, node, pair);
        }
    }

    /// One of the two that a load can have read is known to come before it: it waits for the last store that it sees.
    fn watch_seen(&mut self, memory: &Memory, load: u32, node: Node, pair: Pair) {
        for index in 0..self.looks.seen.len() {
            let Some(store) = self.looks.seen.get(index).copied() else {
                break;
            };
            let is_watched = store == node.own || store == pair.first || store == pair.second;
            if !is_watched && !self.looks.is_followed(&self.derivation, store) {
                self.watches.watch_seen(memory, load, store);
            }
        }
    }

    /// A load's source is known; what a swap read no other one did.
    pub(crate) fn learn(&mut self, memory: &Memory, load: u32, source: u32) {
        if self.derivation.graph.is_swap_load(load) {
            self.take(memory, load, source);
        }
        let is_only = self.candidates.count(load) == 1;
        self.derivation.learn(memory, load, source, is_only);
    }

    /// A swap read a source.
    fn take(&mut self, memory: &Memory, load: u32, source: u32) {
        let list = if source == FIRST {
            self.candidates.take_first(load);
            let class = self.candidates.class_number(load);
            self.watches.list_of_class(class)
        } else {
            if let Some(store) = self.derivation.graph.node(source) {
                self.candidates.take(load, store.chain, store.place);
            }
            source
        };
        self.watches.wake_swaps(memory, &self.derivation, list);
    }
}

/// Whether a node is a load whose source isn't known.
pub(crate) fn is_open(nodes: &[Node], number: u32) -> bool {
    match node_at(nodes, number) {
        Some(node) => node.is_open(),
        None => false,
    }
}
