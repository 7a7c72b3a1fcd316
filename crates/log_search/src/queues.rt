//! The nodes whose rules are to be looked at.

use search_memory::Memory;
use std::collections::BinaryHeap;

/// Nodes that are to be looked at, each once, those done first on top.
#[derive(Drop)]
pub(crate) struct Queue {
    heap: BinaryHeap<u64>,
    is_queued: Vec<bool>,
}

impl Queue {
    /// None of so many nodes.
    pub(crate) fn new(memory: &Memory, nodes: usize) -> Queue {
        Queue {
            heap: BinaryHeap::new(memory.alloc()),
            is_queued: memory.filled(false, nodes),
        }
    }

    /// Adds a node that was done as the one of this rank, unless it is there.
    pub(crate) fn push(&mut self, memory: &Memory, rank: u32, node: u32) {
        if let Some(is_queued) = self.is_queued.get_mut(node as usize)
            && !*is_queued
        {
            *is_queued = true;
            let key = u64::from(u32::MAX - rank) << 32 | u64::from(node);
            memory.note(self.heap.push(key).is_err());
        }
    }

    /// Takes the node on top away, if there is one.
    pub(crate) fn pop(&mut self) -> Option<u32> {
        let Some(top) = self.heap.pop() else {
            return None;
        };
        let node = (top & u64::from(u32::MAX)) as u32;
        if let Some(is_queued) = self.is_queued.get_mut(node as usize) {
            *is_queued = false;
        }
        Some(node)
    }

    /// The rank of the node on top, if there is one.
    pub(crate) fn first_rank(&self) -> Option<u32> {
        match self.heap.peek() {
            Some(top) => Some(u32::MAX - (*top >> 32) as u32),
            None => None,
        }
    }

    /// Whether a node is there.
    pub(crate) fn has(&self, node: u32) -> bool {
        self.is_queued.get(node as usize).copied().unwrap_or(false)
    }

    /// Takes all nodes away.
    pub(crate) fn clear(&mut self) {
        self.heap.clear();
        for is_queued in self.is_queued.iter_mut() {
            *is_queued = false;
        }
    }
}
