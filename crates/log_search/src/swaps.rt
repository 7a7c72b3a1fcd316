//! The swaps of each processor.

use crate::nodes::{Kind, Node};
use crate::numbers::{item, last_up_to, narrow};
use search_memory::Memory;

/// The swaps of a processor: the chain of its loads, and where the places of the swaps' loads there stand among those of all.
#[derive(Clone, Copy)]
struct SwapGroup {
    chain: u32,
    start: u32,
    end: u32,
    /// Where the last search ended.
    near: u32,
}

/// The swaps of all processors that have some.
#[derive(Drop)]
pub(crate) struct Swaps {
    groups: Vec<SwapGroup>,
    places: Vec<u32>,
}

impl Swaps {
    /// Those among the nodes.
    pub(crate) fn new(memory: &Memory, nodes: &[Node]) -> Swaps {
        let mut swaps = Swaps {
            groups: Vec::new(memory.alloc()),
            places: Vec::new(memory.alloc()),
        };
        for node in nodes {
            if node.kind == Kind::SwapLoad {
                swaps.push(memory, node);
            }
        }
        swaps
    }

    fn push(&mut self, memory: &Memory, load: &Node) {
        let start = narrow(self.places.len());
        let end = start.saturating_add(1);
        memory.push(&mut self.places, load.place);
        if let Some(last) = self.groups.last_mut()
            && last.chain == load.chain
        {
            last.end = end;
            return;
        }
        let group = SwapGroup {
            chain: load.chain,
            start,
            end,
            near: start,
        };
        memory.push(&mut self.groups, group);
    }

    /// How many processors have some.
    pub(crate) fn len(&self) -> usize {
        self.groups.len()
    }

    /// The chain of the loads of the processor at an index.
    pub(crate) fn chain(&self, index: usize) -> Option<u32> {
        match self.groups.get(index) {
            Some(group) => Some(group.chain),
            None => None,
        }
    }

    /// The places of the last two of a processor's swaps that aren't above this one, the last one first; 0 for each that isn't
    /// there.
    pub(crate) fn last_two(&mut self, index: usize, place: u32) -> (u32, u32) {
        let Some(group) = self.groups.get_mut(index) else {
            return (0, 0);
        };
        let range = (group.start, group.end);
        group.near = last_up_to(&self.places, range, group.near, place);
        let (start, last) = (group.start, group.near);
        (
            place_before(&self.places, start, last),
            place_before(&self.places, start, last.saturating_sub(1)),
        )
    }
}

/// The place before an index, which stands not before the first one; 0 where there is none.
fn place_before(places: &[u32], first: u32, index: u32) -> u32 {
    if index > first {
        item(places, index.saturating_sub(1))
    } else {
        0
    }
}
