//! Groups: the stores of a chain to one address.

use crate::nodes::{FIRST, Node, node_at};
use crate::numbers::{NONE, begin, count, item, last_up_to, narrow, put};
use search_memory::Memory;

/// The stores of a chain to one address: their places in the chain stand one after the other among the groups' places.
#[derive(Clone, Copy)]
pub(crate) struct StoreGroup {
    pub(crate) chain: u32,
    start: u32,
    end: u32,
    /// Where the last search ended.
    near: u32,
}

/// The groups, those of an address one after the other.
#[derive(Drop)]
pub(crate) struct Groups {
    groups: Vec<StoreGroup>,
    /// Where the groups of each address begin, and where the last ones end.
    starts: Vec<u32>,
    places: Vec<u32>,
    /// For each address the last load of its first value.
    first_readers: Vec<u32>,
}

impl Groups {
    /// How many addresses there are.
    pub(crate) fn addresses(&self) -> usize {
        self.first_readers.len()
    }

    /// The index of the first group of an address, and the index after the last one's.
    pub(crate) fn range(&self, address: u32) -> (u32, u32) {
        (
            item(&self.starts, address),
            item(&self.starts, address.saturating_add(1)),
        )
    }

    /// The group at an index.
    #[inline]
    pub(crate) fn get(&self, index: u32) -> Option<StoreGroup> {
        self.groups.get(index as usize).copied()
    }

    /// The greatest place of a group's stores that isn't above this one; 0 where there is none.
    pub(crate) fn last_place(&mut self, index: u32, place: u32) -> u32 {
        let Some(group) = self.groups.get_mut(index as usize) else {
            return 0;
        };
        let end = last_up_to(&self.places, (group.start, group.end), group.near, place);
        group.near = end;
        match end.checked_sub(1) {
            Some(last) if end > group.start => item(&self.places, last),
            _ => 0,
        }
    }

    /// The index of a group's first store that is past a place, and the index after its last store's.
    pub(crate) fn after(&self, group: StoreGroup, place: u32) -> (u32, u32) {
        let range = (group.start, group.end);
        (
            last_up_to(&self.places, range, group.near, place),
            group.end,
        )
    }

    /// The place of the store at an index.
    #[inline]
    pub(crate) fn place(&self, index: u32) -> u32 {
        item(&self.places, index)
    }

    /// A load of an address read the first value too: the one before that did.
    pub(crate) fn add_first_reader(&mut self, address: u32, load: u32) -> u32 {
        let before = item(&self.first_readers, address);
        put(&mut self.first_readers, address, load);
        before
    }

    /// The place of a group's first store.
    pub(crate) fn first_place(&self, group: StoreGroup) -> u32 {
        item(&self.places, group.start)
    }

    /// One load of an address' first value: `before` of each names the next one.
    pub(crate) fn first_reader(&self, address: u32) -> u32 {
        item(&self.first_readers, address)
    }
}

/// The stores, those to one address one after the other, each address' in the order of the nodes.
fn sort_stores(memory: &Memory, addresses: usize, nodes: &[Node]) -> Vec<u32> {
    let mut starts = memory.filled(0, addresses);
    let stores = count_stores(nodes, &mut starts);
    begin(&mut starts);
    let mut sorted = memory.filled(NONE, stores);
    for (number, node) in nodes.iter().enumerate() {
        if node.is_store() {
            let index = count(&mut starts, node.address);
            put(&mut sorted, index, narrow(number));
        }
    }
    sorted
}

/// Counts the stores to each address: how many there are in all.
fn count_stores(nodes: &[Node], counts: &mut [u32]) -> usize {
    let mut stores: usize = 0;
    for node in nodes {
        if node.is_store() {
            count(counts, node.address);
            stores = stores.saturating_add(1);
        }
    }
    stores
}

/// Puts the stores into groups, of which each store knows its neighbours.
pub(crate) fn make_groups(memory: &Memory, addresses: usize, nodes: &mut [Node]) -> Groups {
    let sorted = sort_stores(memory, addresses, nodes);
    let mut groups = Groups {
        groups: Vec::new(memory.alloc()),
        starts: memory.filled(0, addresses.saturating_add(1)),
        places: memory.room(sorted.len()),
        first_readers: memory.filled(NONE, addresses),
    };
    let mut last = NONE;
    for number in &sorted {
        groups.push(memory, nodes, last, *number);
        last = *number;
    }
    begin(&mut groups.starts);
    groups.link_first_readers(nodes);
    groups
}

impl Groups {
    /// Puts the next store into the group of the last one, or into a new one.
    fn push(&mut self, memory: &Memory, nodes: &mut [Node], last: u32, number: u32) {
        let Some(store) = node_at(nodes, number) else {
            return;
        };
        let start = narrow(self.places.len());
        memory.push(&mut self.places, store.place);
        let end = start.saturating_add(1);
        if let Some(before) = nodes.get_mut(last as usize)
            && before.address == store.address
            && before.chain == store.chain
        {
            before.own = number;
            if let Some(store) = nodes.get_mut(number as usize) {
                store.before = last;
            }
            if let Some(group) = self.groups.last_mut() {
                group.end = end;
            }
            return;
        }
        count(&mut self.starts, store.address);
        let group = StoreGroup {
            chain: store.chain,
            start,
            end,
            near: start,
        };
        memory.push(&mut self.groups, group);
    }

    /// Links the loads of the first value of each address.
    fn link_first_readers(&mut self, nodes: &mut [Node]) {
        for (number, node) in nodes.iter_mut().enumerate() {
            if node.is_load() && node.source == FIRST {
                node.before = item(&self.first_readers, node.address);
                put(&mut self.first_readers, node.address, narrow(number));
            }
        }
    }
}
