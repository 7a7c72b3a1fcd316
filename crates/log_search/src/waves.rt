//! The derived order where sources aren't known at first: all nodes count as done, and those with the fewest nodes before them
//! are looked at first, so that what happened at one time is found together.

use crate::derivation::Derivation;
use crate::edges::Why;
use crate::nodes::{FIRST, Node};
use crate::numbers::NONE;
use search_memory::Memory;

impl Derivation {
    /// All nodes count as done, and none is met.
    pub(crate) fn begin_waves(&mut self, memory: &Memory) {
        self.notes.turn_on();
        for rank in self.graph.ranks.iter_mut() {
            *rank = 1;
        }
        self.fronts.begin(memory, &self.graph.firsts);
    }

    /// The next node whose row grew since it was handed on: of those the one with the fewest nodes before it.
    pub(crate) fn next_grown(&mut self, memory: &Memory) -> Option<u32> {
        for _ in 0..usize::MAX {
            let Some(rank) = self.queue.first_rank() else {
                return None;
            };
            let Some(number) = self.queue.pop() else {
                return None;
            };
            if self.rows.level(number) <= rank {
                return Some(number);
            }
            self.queue(memory, number);
        }
        None
    }

    /// `u` comes before `v`, by an edge that isn't kept: it is noted if there is no path yet.
    pub(crate) fn put_before(&mut self, memory: &Memory, u: u32, v: u32, why: Why) {
        if self.closing.is_none() && !self.reaches(u, v) {
            self.notes.add(memory, u, v, why);
        }
        self.join(memory, u, v);
    }

    /// The rules of a node, and what comes after it.
    pub(crate) fn pass(&mut self, memory: &Memory, number: u32) {
        self.apply_rules(memory, number);
        self.graph.links_from(memory, number, &mut self.links);
        let scanned = self.graph.scanned_from(number);
        self.work.spend(scanned.saturating_add(self.links.len()));
        for k in 0..self.links.len() {
            let Some(link) = self.links.get(k) else {
                break;
            };
            match link.why {
                Why::SwapBefore(_) if link.number == 0 => {
                    self.put_before(memory, number, link.node, link.why);
                }
                _ => self.join(memory, number, link.node),
            }
        }
    }

    /// A load's source is known now, a store or `FIRST`, by the values alone where `is_only`: what follows at once.
    pub(crate) fn learn(&mut self, memory: &Memory, load: u32, source: u32, is_only: bool) {
        self.notes.add_source(memory, source, load, is_only);
        let Some(node) = self.graph.node(load) else {
            return;
        };
        self.link_reader(load, node, source);
        match self.graph.node(source) {
            Some(store) => self.put_around(memory, load, node, source, store),
            None => self.put_before_stores(memory, load, node),
        }
        self.queue(memory, load);
    }

    /// Writes a load's source, and the load into the list of its readers.
    fn link_reader(&mut self, load: u32, node: Node, source: u32) {
        let mut next = NONE;
        if source == FIRST {
            next = self.graph.groups.add_first_reader(node.address, load);
        } else if let Some(store) = self.graph.nodes.get_mut(source as usize) {
            next = store.source;
            store.source = load;
        }
        if let Some(node) = self.graph.nodes.get_mut(load as usize) {
            node.source = source;
            node.before = next;
        }
    }

    /// A load of the first value comes before the first store of each chain to its address.
    fn put_before_stores(&mut self, memory: &Memory, load: u32, node: Node) {
        let (start, end) = self.graph.groups.range(node.address);
        for index in start..end {
            let Some(group) = self.graph.groups.get(index) else {
                break;
            };
            let place = self.graph.groups.first_place(group);
            if let Some(store) = self.graph.chains.member(group.chain, place)
                && !self.is_own_before(store, load, node)
            {
                self.put_before(memory, load, store, Why::StorePast(load));
            }
        }
    }

    /// Whether a store is the load's processor's, before it.
    pub(crate) fn is_own_before(&self, store: u32, load: u32, node: Node) -> bool {
        match self.graph.node(store) {
            Some(other) => other.processor == node.processor && store < load,
            None => false,
        }
    }

    /// A load comes after its source, if that wasn't forwarded; what it saw before comes before the source; and it comes before
    /// the stores that come after the source.
    fn put_around(&mut self, memory: &Memory, load: u32, node: Node, source: u32, store: Node) {
        if !self.is_own_before(source, load, node) {
            self.put_before(memory, source, load, Why::Read);
        }
        if node.own != NONE && node.own != source {
            self.infer(memory, node.own, source, Why::Own(load));
        }
        if store.own != NONE {
            self.put_before(memory, load, store.own, Why::StorePast(load));
        }
        let (start, end) = self.graph.groups.range(node.address);
        self.work.spend(end.saturating_sub(start) as usize);
        for index in start..end {
            self.put_before_group(memory, load, source, index);
        }
    }

    /// A load whose source is known comes before the stores that come after that: looks for these again.
    pub(crate) fn put_before_later(&mut self, memory: &Memory, load: u32) {
        let Some(node) = self.graph.node(load) else {
            return;
        };
        if node.is_open() || node.source == FIRST {
            return;
        }
        let (start, end) = self.graph.groups.range(node.address);
        self.work.spend(end.saturating_sub(start) as usize);
        for index in start..end {
            self.put_before_group(memory, load, node.source, index);
        }
    }

    /// The load comes before the first store of a group that comes after its source.
    fn put_before_group(&mut self, memory: &Memory, load: u32, source: u32, index: u32) {
        let Some(group) = self.graph.groups.get(index) else {
            return;
        };
        let past = self.rows.place(source, group.chain);
        let (start, end) = self.graph.groups.after(group, past);
        let found = self.first_after(group.chain, (start, end), load, source);
        let place = self.graph.groups.place(found);
        if found < end
            && let Some(store) = self.graph.chains.member(group.chain, place)
            && store != source
            && self.reaches(source, store)
        {
            self.infer(memory, load, store, Why::StorePast(load));
        }
    }

    /// Whether the store at an index of a group was met.
    fn is_met_at(&self, chain: u32, index: u32) -> bool {
        match self
            .graph
            .chains
            .member(chain, self.graph.groups.place(index))
        {
            Some(store) => self.is_met(store),
            None => false,
        }
    }

    /// The first index among those of a group's stores that has a store after the load or after the source: rows far ahead may
    /// lack what reaches them, so it looks near first, and at none that wasn't met.
    fn first_after(&mut self, chain: u32, range: (u32, u32), load: u32, source: u32) -> u32 {
        let (mut low, end) = range;
        let mut high = low;
        let mut step: u32 = 1;
        for _ in 0..u32::BITS {
            if high >= end || !self.is_met_at(chain, high) {
                high = high.min(end);
                break;
            }
            if self.is_after_either(chain, high, load, source) {
                break;
            }
            low = high.saturating_add(1);
            high = low.saturating_add(step);
            step = step.saturating_mul(2);
        }
        for _ in 0..u32::BITS {
            if low >= high {
                break;
            }
            let middle = low + (high - low) / 2;
            if self.is_after_either(chain, middle, load, source) {
                high = middle;
            } else {
                low = middle + 1;
            }
        }
        low
    }

    /// Whether the store at an index of a group comes after the load or after the source.
    fn is_after_either(&self, chain: u32, index: u32, load: u32, source: u32) -> bool {
        match self
            .graph
            .chains
            .member(chain, self.graph.groups.place(index))
        {
            Some(store) => self.reaches(load, store) || self.reaches(source, store),
            None => false,
        }
    }
}
