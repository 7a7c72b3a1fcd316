//! How far the nodes of each processor were met, where sources aren't known at first: in program order, and of all processors
//! those first that have the fewest nodes before them.

use crate::numbers::{NONE, item, narrow, put};
use search_memory::Memory;
use std::alloc::Global;
use std::collections::BinaryHeap;

/// The first node of each processor that wasn't met yet: its front.
#[derive(Drop)]
pub(crate) struct Fronts {
    nodes: Vec<u32>,
    /// The store that each front waits for; `NONE` where it waits for none.
    awaited: Vec<u32>,
    /// Whether each front waits for no store any more.
    is_free: Vec<bool>,
    /// The processors whose fronts wait for none, by the levels of these, the lowest on top.
    heap: BinaryHeap<u64>,
}

impl Fronts {
    /// Those of no processors.
    pub(crate) fn new(alloc: Global) -> Fronts {
        Fronts {
            nodes: Vec::new(alloc),
            awaited: Vec::new(alloc),
            is_free: Vec::new(alloc),
            heap: BinaryHeap::new(alloc),
        }
    }

    /// Of each processor the first node is its front: `firsts` has these, and then the number of nodes.
    pub(crate) fn begin(&mut self, memory: &Memory, firsts: &[u32]) {
        let processors = firsts.len().saturating_sub(1);
        self.nodes = memory.copied(firsts);
        self.awaited = memory.filled(NONE, processors);
        self.is_free = memory.filled(false, processors);
        for processor in 0..processors {
            let processor = narrow(processor);
            if item(firsts, processor) < item(firsts, processor.saturating_add(1)) {
                self.push(memory, 0, processor);
            }
        }
    }

    /// The front of a processor.
    #[inline]
    pub(crate) fn node(&self, processor: u32) -> u32 {
        item(&self.nodes, processor)
    }

    /// A processor's front was met.
    pub(crate) fn advance(&mut self, processor: u32) {
        let next = self.node(processor).saturating_add(1);
        put(&mut self.nodes, processor, next);
        self.set_free(processor, false);
    }

    /// A processor's front has so many nodes before it, and waits for none.
    pub(crate) fn push(&mut self, memory: &Memory, level: u32, processor: u32) {
        let key = u64::from(u32::MAX - level) << 32 | u64::from(processor);
        memory.note(self.heap.push(key).is_err());
    }

    /// The lowest level of the fronts that wait for none.
    pub(crate) fn first_level(&self) -> Option<u32> {
        match self.heap.peek() {
            Some(top) => Some(u32::MAX - (*top >> 32) as u32),
            None => None,
        }
    }

    /// Takes the processor whose front has the lowest level.
    pub(crate) fn pop(&mut self) -> Option<u32> {
        match self.heap.pop() {
            Some(top) => Some((top & u64::from(u32::MAX)) as u32),
            None => None,
        }
    }

    /// Whether a processor's front waits for no store any more.
    pub(crate) fn is_free(&self, processor: u32) -> bool {
        self.is_free
            .get(processor as usize)
            .copied()
            .unwrap_or(true)
    }

    fn set_free(&mut self, processor: u32, is_free: bool) {
        if let Some(slot) = self.is_free.get_mut(processor as usize) {
            *slot = is_free;
        }
    }

    /// A processor's front waits for a store.
    pub(crate) fn wait(&mut self, processor: u32, store: u32) {
        put(&mut self.awaited, processor, store);
    }

    /// A processor whose front waited for this store, if there is one: it waits no longer.
    pub(crate) fn end_waiting(&mut self, store: u32) -> Option<u32> {
        for (processor, slot) in self.awaited.iter_mut().enumerate() {
            if *slot == store {
                *slot = NONE;
                return Some(narrow(processor));
            }
        }
        None
    }

    /// A processor whose front waits, if there is one: it waits for no store any more.
    pub(crate) fn free_one(&mut self) -> Option<u32> {
        for (processor, slot) in self.awaited.iter_mut().enumerate() {
            if *slot != NONE {
                *slot = NONE;
                self.set_free(narrow(processor), true);
                return Some(narrow(processor));
            }
        }
        None
    }
}
