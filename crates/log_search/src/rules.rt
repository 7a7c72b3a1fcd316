//! What follows from a row that grew.

use crate::derivation::{Closing, Derivation};
use crate::edges::Why;
use crate::nodes::{FIRST, Kind, Node};
use crate::numbers::{NONE, narrow};
use search_memory::Memory;

/// What a search in a group counts for, in words of rows.
const SEARCH: usize = 8;

impl Derivation {
    /// The inferred edges that follow from what reaches a node.
    pub(crate) fn apply_rules(&mut self, memory: &Memory, number: u32) {
        let Some(node) = self.graph.node(number) else {
            return;
        };
        match node.kind {
            Kind::Load | Kind::SwapLoad => {
                if node.source == FIRST {
                    self.look_before_first(number, node);
                } else if self.graph.is_done(node.source) {
                    self.join_own(memory, node);
                    self.find_load_past(memory, number, node);
                }
            }
            Kind::Store | Kind::SwapStore | Kind::LoneSwapStore => {
                self.find_store_past(memory, number, node);
                self.find_swap_after(memory, number, node);
                if node.kind == Kind::SwapStore {
                    self.find_swap_before(memory, number);
                }
            }
            Kind::Stbar => {}
        }
    }

    /// A load of the first value comes before each store to its address: does one come before it?
    fn look_before_first(&mut self, number: u32, load: Node) {
        if load.own != NONE {
            self.close(Closing::OwnFirst {
                store: load.own,
                load: number,
            });
            return;
        }
        let (start, end) = self.begin_groups(load);
        for index in start..end {
            let Some(group) = self.graph.groups.get(index) else {
                break;
            };
            let place = self.rows.place(number, group.chain);
            if place >= self.graph.groups.first_place(group) {
                let last = self.graph.groups.last_place(index, place);
                if let Some(store) = self.graph.chains.member(group.chain, last) {
                    self.close(Closing::First {
                        store,
                        load: number,
                    });
                }
            }
        }
    }

    /// Notes how a violation shows, unless one was found before.
    fn close(&mut self, closing: Closing) {
        if self.closing.is_none() {
            self.closing = Some(closing);
        }
    }

    /// The groups of the stores to a node's address, by their indices, each of which is looked at now.
    fn begin_groups(&mut self, node: Node) -> (u32, u32) {
        let (start, end) = self.graph.groups.range(node.address);
        self.work.spend(end.saturating_sub(start) as usize);
        (start, end)
    }

    /// The rule Own, now that the load is done.
    fn join_own(&mut self, memory: &Memory, load: Node) {
        let is_other = load.own != NONE && load.own != load.source;
        if is_other && self.graph.is_done(load.own) && !self.reaches(load.own, load.source) {
            self.join(memory, load.own, load.source);
        }
    }

    /// LoadPast: the stores to its address that reach the load come before its source.
    fn find_load_past(&mut self, memory: &Memory, number: u32, load: Node) {
        let (start, end) = self.begin_groups(load);
        for index in start..end {
            let past = self.place_in_group(load.source, index);
            if let Some(store) = self.last_store(number, index, past)
                && store != load.source
            {
                self.infer(memory, store, load.source, Why::LoadPast(number));
            }
        }
    }

    /// The greatest place that reaches a node in the chain of the group at an index; 0 where there is no such node.
    fn place_in_group(&self, node: u32, index: u32) -> u32 {
        match self.graph.groups.get(index) {
            Some(group) => self.rows.place(node, group.chain),
            None => 0,
        }
    }

    /// The last store of the group at an index that reaches a node, if it is past a place.
    fn last_store(&mut self, number: u32, index: u32, past: u32) -> Option<u32> {
        let Some(group) = self.graph.groups.get(index) else {
            return None;
        };
        let place = self.rows.place(number, group.chain);
        if place <= past {
            return None;
        }
        self.work.spend(SEARCH);
        let last = self.graph.groups.last_place(index, place);
        if last <= past {
            return None;
        }
        self.graph.chains.member(group.chain, last)
    }

    /// StorePast: loads whose source reaches this store to their address come before it. Those of each chain's last store
    /// say all, and nothing is new that reaches the processor's store to the address before this one.
    fn find_store_past(&mut self, memory: &Memory, number: u32, store: Node) {
        let (start, end) = self.begin_groups(store);
        for index in start..end {
            let past = self.place_in_group(store.before, index);
            if let Some(source) = self.last_store(number, index, past)
                && source != store.before
                && source != number
            {
                self.put_readers_before(memory, source, number);
            }
        }
    }

    fn put_readers_before(&mut self, memory: &Memory, source: u32, store: u32) {
        let mut reader = self.graph.first_reader(source);
        for _ in 0..self.graph.nodes.len() {
            let Some(load) = self.graph.node(reader) else {
                break;
            };
            self.work.spend(1);
            if load.is_live_load() {
                self.infer(memory, reader, store, Why::StorePast(reader));
            }
            reader = load.before;
        }
    }

    /// SwapAfter: the stores of swaps whose loads reach this store come before it. Those of each processor's last swap say
    /// all.
    fn find_swap_after(&mut self, memory: &Memory, number: u32, store: Node) {
        let before = match self.graph.chains.before(store) {
            Some(before) => before,
            None => NONE,
        };
        let processors = self.swaps.len();
        self.work.spend(processors);
        for index in 0..processors {
            if let Some(load) = self.last_swap(index, number, before)
                && self.graph.is_swap_load(load)
            {
                let after = load.saturating_add(1);
                self.infer(memory, after, number, Why::SwapAfter(load));
            }
        }
    }

    /// The load of a processor's last swap, not the store itself, that reaches the store, if it doesn't reach what comes
    /// before that in its chain.
    fn last_swap(&mut self, index: usize, number: u32, before: u32) -> Option<u32> {
        let Some(chain) = self.swaps.chain(index) else {
            return None;
        };
        let place = self.rows.place(number, chain);
        if place <= self.rows.place(before, chain) {
            return None;
        }
        self.work.spend(SEARCH);
        let (last, second) = self.swaps.last_two(index, place);
        match self.graph.chains.member(chain, last) {
            Some(load) if load.saturating_add(1) != number => Some(load),
            _ => self.graph.chains.member(chain, second),
        }
    }

    /// SwapBefore: stores that reach this swap's store come before its load.
    fn find_swap_before(&mut self, memory: &Memory, number: u32) {
        let load = number.saturating_sub(1);
        let width = self.rows.width();
        self.work.spend(width);
        for chain in 0..width {
            let chain = narrow(chain);
            let place = self.rows.place(number, chain);
            if place > self.rows.place(load, chain)
                && let Some(store) = self.graph.chains.member(chain, place)
                && let Some(node) = self.graph.node(store)
                && node.is_store()
            {
                self.infer(memory, store, load, Why::SwapBefore(load));
            }
        }
    }
}
