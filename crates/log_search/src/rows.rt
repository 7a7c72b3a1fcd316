//! What reaches each node: for each chain the greatest place of it that does, 0 where none does.

use search_memory::Memory;

/// A row for each node.
#[derive(Drop)]
pub(crate) struct Rows {
    places: Vec<u32>,
    width: usize,
}

impl Rows {
    /// Rows of so many nodes and chains, which nothing reaches.
    pub(crate) fn new(memory: &Memory, nodes: usize, width: usize) -> Rows {
        let size = match nodes.checked_mul(width) {
            Some(size) => size,
            None => {
                memory.note(true);
                0
            }
        };
        Rows {
            places: memory.filled(0, size),
            width,
        }
    }

    /// How many chains there are.
    pub(crate) fn width(&self) -> usize {
        self.width
    }

    fn start(&self, node: u32) -> usize {
        (node as usize).saturating_mul(self.width)
    }

    /// The greatest place of a chain that reaches the node.
    #[inline]
    pub(crate) fn place(&self, node: u32, chain: u32) -> u32 {
        let index = self.start(node).saturating_add(chain as usize);
        self.places.get(index).copied().unwrap_or(0)
    }

    /// Notes that a place of a chain reaches the node: whether it was none that did.
    #[inline]
    pub(crate) fn raise(&mut self, node: u32, chain: u32, place: u32) -> bool {
        let index = self.start(node).saturating_add(chain as usize);
        match self.places.get_mut(index) {
            Some(slot) if *slot < place => {
                *slot = place;
                true
            }
            _ => false,
        }
    }

    /// What reaches `u` reaches `v`: whether something of it didn't.
    pub(crate) fn join(&mut self, u: u32, v: u32) -> bool {
        let from = self.start(u);
        let into = self.start(v);
        let width = self.width;
        let middle = from.max(into).min(self.places.len());
        let (low, high) = self.places.split_at_mut(middle);
        if from < into {
            join_row(part(low, from, width), part_mut(high, 0, width))
        } else if into < from {
            join_row(part(high, 0, width), part_mut(low, into, width))
        } else {
            false
        }
    }

    /// How many nodes reach a node, as the sum of its places.
    #[inline]
    pub(crate) fn level(&self, node: u32) -> u32 {
        let mut sum: u32 = 0;
        for place in part(&self.places, self.start(node), self.width) {
            sum = sum.saturating_add(*place);
        }
        sum
    }

    /// Lowers places to those that reach a node, which is the one of a place of a chain, or are that node.
    pub(crate) fn lower(&self, places: &mut [u32], node: u32, chain: u32, place: u32) {
        let row = part(&self.places, self.start(node), self.width);
        for (index, (slot, reached)) in places.iter_mut().zip(row).enumerate() {
            let own = if index == chain as usize { place } else { 0 };
            *slot = (*slot).min((*reached).max(own));
        }
    }

    /// Nothing reaches the node.
    pub(crate) fn clear(&mut self, node: u32) {
        let start = self.start(node);
        let width = self.width;
        for slot in part_mut(&mut self.places, start, width).iter_mut() {
            *slot = 0;
        }
    }
}

/// So many items from an index on, or those that there are.
fn part(items: &[u32], start: usize, width: usize) -> &[u32] {
    let end = start.saturating_add(width).min(items.len());
    let start = start.min(end);
    &items[start..end]
}

fn part_mut(items: &mut [u32], start: usize, width: usize) -> &mut [u32] {
    let end = start.saturating_add(width).min(items.len());
    let start = start.min(end);
    &mut items[start..end]
}

fn join_row(from: &[u32], into: &mut [u32]) -> bool {
    let mut grew = false;
    for (slot, place) in into.iter_mut().zip(from) {
        grew |= *slot < *place;
        *slot = (*slot).max(*place);
    }
    grew
}
