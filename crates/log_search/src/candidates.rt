//! The stores that loads can have read by their values: those of one address and value are a class, in each chain in its order.

use crate::lookups::logged_at;
use crate::nodes::Node;
use crate::numbers::{NONE, begin, count, item, last_up_to, narrow, put};
use log_selections::KnownLog;
use log_text::LogOperation;
use search_memory::Memory;
use std::collections::HashMap;

/// The stores of a class in one chain: their places stand one after the other.
#[derive(Clone, Copy)]
pub(crate) struct Part {
    pub(crate) chain: u32,
    pub(crate) start: u32,
    pub(crate) end: u32,
    /// Where the last search ended.
    near: u32,
}

/// A class: its parts, and whether it has the first value, which a swap may have read.
#[derive(Clone, Copy)]
struct Class {
    start: u32,
    end: u32,
    has_first: bool,
    is_first_taken: bool,
}

/// The classes of the values that some load has.
#[derive(Drop)]
pub(crate) struct Candidates {
    class_of: Vec<u32>,
    classes: Vec<Class>,
    parts: Vec<Part>,
    places: Vec<u32>,
    /// For each store the first one from it on that no swap read, as far as it was looked for, and the last one up to it: each
    /// one more than its index, so that 0 is none.
    next: Vec<u32>,
    last: Vec<u32>,
}

/// The numbers of classes while they are given.
#[derive(Drop)]
struct Naming<'a> {
    known: &'a KnownLog,
    numbers: HashMap<(u64, u64), u32>,
    first: HashMap<u64, u64>,
}

impl Candidates {
    /// The classes of nodes.
    pub(crate) fn new(memory: &Memory, known: &KnownLog, nodes: &[Node]) -> Candidates {
        let mut candidates = Candidates {
            class_of: memory.filled(NONE, nodes.len()),
            classes: Vec::new(memory.alloc()),
            parts: Vec::new(memory.alloc()),
            places: Vec::new(memory.alloc()),
            next: Vec::new(memory.alloc()),
            last: Vec::new(memory.alloc()),
        };
        let mut naming = Naming {
            known,
            numbers: HashMap::new(memory.alloc()),
            first: HashMap::new(memory.alloc()),
        };
        naming.note_first(memory);
        candidates.name_loads(memory, &mut naming, nodes);
        candidates.name_stores(&naming, nodes);
        candidates.list_stores(memory, nodes);
        candidates.free_all(memory);
        candidates
    }

    fn name_loads(&mut self, memory: &Memory, naming: &mut Naming<'_>, nodes: &[Node]) {
        for (number, node) in nodes.iter().enumerate() {
            if node.is_load()
                && let Some(key) = key_of(naming.known, *node)
            {
                let class = naming.number(memory, key);
                if class as usize >= self.classes.len() {
                    let has_first = naming.is_first(key);
                    memory.push(
                        &mut self.classes,
                        Class {
                            start: 0,
                            end: 0,
                            has_first,
                            is_first_taken: false,
                        },
                    );
                }
                put(&mut self.class_of, narrow(number), class);
            }
        }
    }

    fn name_stores(&mut self, naming: &Naming<'_>, nodes: &[Node]) {
        for (number, node) in nodes.iter().enumerate() {
            if node.is_store()
                && let Some(key) = key_of(naming.known, *node)
                && let Some(class) = naming.numbers.get(&key)
            {
                put(&mut self.class_of, narrow(number), *class);
            }
        }
    }

    /// Lists the stores of each class, in the order of nodes: those of a chain one after the other.
    fn list_stores(&mut self, memory: &Memory, nodes: &[Node]) {
        let mut starts = memory.filled(0, self.classes.len());
        let stores = self.count_stores(nodes, &mut starts);
        begin(&mut starts);
        let mut sorted = memory.filled(NONE, stores);
        for (number, node) in nodes.iter().enumerate() {
            let class = item(&self.class_of, narrow(number));
            if node.is_store() && class != NONE {
                let index = count(&mut starts, class);
                put(&mut sorted, index, narrow(number));
            }
        }
        self.places = memory.room(stores);
        for number in &sorted {
            self.push_store(memory, nodes, *number);
        }
    }

    fn count_stores(&self, nodes: &[Node], counts: &mut [u32]) -> usize {
        let mut stores: usize = 0;
        for (number, node) in nodes.iter().enumerate() {
            let class = item(&self.class_of, narrow(number));
            if node.is_store() && class != NONE {
                count(counts, class);
                stores = stores.saturating_add(1);
            }
        }
        stores
    }

    /// Pushes the next store to its class.
    fn push_store(&mut self, memory: &Memory, nodes: &[Node], number: u32) {
        let Some(store) = nodes.get(number as usize).copied() else {
            return;
        };
        let start = narrow(self.places.len());
        let end = start.saturating_add(1);
        memory.push(&mut self.places, store.place);
        let parts = narrow(self.parts.len());
        let Some(class) = self.classes.get_mut(item(&self.class_of, number) as usize) else {
            return;
        };
        if class.end == 0 {
            class.start = parts;
            class.end = parts;
        }
        if class.end > class.start
            && let Some(part) = self.parts.last_mut()
            && part.chain == store.chain
        {
            part.end = end;
            return;
        }
        class.end = parts.saturating_add(1);
        let chain = store.chain;
        let near = start;
        memory.push(
            &mut self.parts,
            Part {
                chain,
                start,
                end,
                near,
            },
        );
    }

    /// No store is taken.
    fn free_all(&mut self, memory: &Memory) {
        let stores = narrow(self.places.len());
        self.next = memory.room(self.places.len());
        self.last = memory.room(self.places.len());
        for store in 1..=stores {
            memory.push(&mut self.next, store);
            memory.push(&mut self.last, store);
        }
    }

    /// The parts of a node's class, by their indices.
    pub(crate) fn parts_of(&self, node: u32) -> (u32, u32) {
        match self.class(node) {
            Some(class) => (class.start, class.end),
            None => (0, 0),
        }
    }

    fn class(&self, node: u32) -> Option<Class> {
        self.classes
            .get(item(&self.class_of, node) as usize)
            .copied()
    }

    /// The part at an index.
    #[inline]
    pub(crate) fn part(&self, index: u32) -> Option<Part> {
        self.parts.get(index as usize).copied()
    }

    /// The place of the store at an index.
    #[inline]
    pub(crate) fn place(&self, index: u32) -> u32 {
        item(&self.places, index)
    }

    /// How many stores a part has up to a place, as the index after the last of them.
    pub(crate) fn end_up_to(&self, part: Part, place: u32) -> u32 {
        last_up_to(&self.places, (part.start, part.end), part.near, place)
    }

    /// The same of the part at an index, near which the next search begins.
    pub(crate) fn find_end(&mut self, index: u32, place: u32) -> u32 {
        let Some(part) = self.parts.get_mut(index as usize) else {
            return 0;
        };
        part.near = last_up_to(&self.places, (part.start, part.end), part.near, place);
        part.near
    }

    /// The number of a load's class.
    pub(crate) fn class_number(&self, load: u32) -> u32 {
        item(&self.class_of, load)
    }

    /// How many classes there are.
    pub(crate) fn classes(&self) -> usize {
        self.classes.len()
    }

    /// Whether a load can have read the first value by its value, if it is a swap's also by what other swaps read.
    pub(crate) fn has_first(&self, load: u32, is_swap: bool) -> bool {
        match self.class(load) {
            Some(class) => class.has_first && !(is_swap && class.is_first_taken),
            None => false,
        }
    }

    /// How many a load can have read by its value alone.
    pub(crate) fn count(&self, load: u32) -> u32 {
        let (start, end) = self.parts_of(load);
        let first = u32::from(self.has_first(load, false));
        match (self.part(start), self.part(end.saturating_sub(1))) {
            (Some(begin), Some(last)) if end > start => {
                last.end.saturating_sub(begin.start).saturating_add(first)
            }
            _ => first,
        }
    }

    /// The part of the one store that a load can have read by its value alone, if it can have read one alone.
    pub(crate) fn only_part(&self, load: u32) -> Option<Part> {
        let (start, end) = self.parts_of(load);
        match self.part(start) {
            Some(part) if end == start.saturating_add(1) && self.count(load) == 1 => Some(part),
            _ => None,
        }
    }

    /// A swap read the first value of a load's address.
    pub(crate) fn take_first(&mut self, load: u32) {
        let class = item(&self.class_of, load);
        if let Some(class) = self.classes.get_mut(class as usize) {
            class.is_first_taken = true;
        }
    }

    /// A swap read the store of this chain and place, which is of its load's class.
    pub(crate) fn take(&mut self, load: u32, chain: u32, place: u32) {
        let (start, end) = self.parts_of(load);
        for index in start..end {
            if let Some(part) = self.part(index)
                && part.chain == chain
            {
                let store = self.end_up_to(part, place).saturating_sub(1);
                put(&mut self.next, store, store.saturating_add(2));
                put(&mut self.last, store, store);
            }
        }
    }

    /// The first store from an index on that no swap read; past the end where there is none.
    pub(crate) fn first_left(&mut self, index: u32) -> u32 {
        let found = self.root_after(index);
        let mut at = index;
        for _ in 0..self.next.len() {
            let next = item(&self.next, at);
            if at >= found || next <= at.saturating_add(1) {
                break;
            }
            put(&mut self.next, at, found.saturating_add(1));
            at = next.saturating_sub(1);
        }
        found
    }

    fn root_after(&self, index: u32) -> u32 {
        let mut at = index;
        for _ in 0..self.next.len() {
            let next = item(&self.next, at);
            if next <= at.saturating_add(1) {
                break;
            }
            at = next.saturating_sub(1);
        }
        at
    }

    /// One more than the last store before an index that no swap read; 0 where there is none.
    pub(crate) fn end_left(&mut self, end: u32) -> u32 {
        let found = self.root_before(end);
        let mut at = end;
        for _ in 0..self.last.len() {
            let Some(store) = at.checked_sub(1) else {
                break;
            };
            let last = item(&self.last, store);
            if last >= at {
                break;
            }
            put(&mut self.last, store, found);
            at = last;
        }
        found
    }

    fn root_before(&self, end: u32) -> u32 {
        let mut at = end;
        for _ in 0..self.last.len() {
            let Some(store) = at.checked_sub(1) else {
                break;
            };
            let last = item(&self.last, store);
            if last >= at {
                break;
            }
            at = last;
        }
        at
    }
}

impl Naming<'_> {
    fn note_first(&mut self, memory: &Memory) {
        for (address, value) in &self.known.log().first {
            memory.note(self.first.insert(*address, *value).is_err());
        }
    }

    /// The number of a class, which may be a new one.
    fn number(&mut self, memory: &Memory, key: (u64, u64)) -> u32 {
        match self.numbers.get(&key).copied() {
            Some(class) => class,
            None => {
                let class = narrow(self.numbers.len());
                memory.note(self.numbers.insert(key, class).is_err());
                class
            }
        }
    }

    fn is_first(&self, key: (u64, u64)) -> bool {
        let (address, value) = key;
        self.first.get(&address).copied().unwrap_or(0) == value
    }
}

/// The address of a node, and the value that it read or stored.
pub(crate) fn key_of(known: &KnownLog, node: Node) -> Option<(u64, u64)> {
    let Some(logged) = logged_at(known, node.processor as usize, node.operation as usize) else {
        return None;
    };
    match logged.operation {
        LogOperation::Ld { a, r } => Some((a, r)),
        LogOperation::St { a, v } => Some((a, v)),
        LogOperation::Sw { a, r, v } => Some((a, if node.is_load() { r } else { v })),
        LogOperation::Mb | LogOperation::Sb => None,
    }
}
