//! What the loads whose sources aren't known wait for: a load can have read several as long as two that it can have read stay so.

use crate::derivation::Derivation;
use crate::glances::Pair;
use crate::nodes::{FIRST, Kind, Node};
use crate::numbers::{NONE, item, narrow, put};
use search_memory::Memory;

/// What a load waits for.
#[derive(Clone, Copy)]
pub(crate) struct Watched {
    /// Two that it can have read: a store, `FIRST`, or `NONE`. The second is `NONE` where the first waits to be met.
    pub(crate) first: u32,
    pub(crate) second: u32,
    /// A store that it sees, which may come to follow one of these.
    pub(crate) seen: u32,
    /// The index of the first part of its class of which something may be left.
    pub(crate) part: u32,
}

/// What a load waits for before it is looked at.
const NOTHING: Watched = Watched {
    first: NONE,
    second: NONE,
    seen: NONE,
    part: 0,
};

/// An entry in the list of a node: a load that waits for something there, and the next entry.
#[derive(Clone, Copy)]
struct Entry {
    load: u32,
    next: u32,
}

/// The lists of the nodes, and then those of the first values of classes.
#[derive(Drop)]
pub(crate) struct Watches {
    lists: Vec<u32>,
    entries: Vec<Entry>,
    /// The first entry that no list has.
    free: u32,
    watched: Vec<Watched>,
    /// The swaps' loads and the other loads that are to be looked at, each once.
    woken_swaps: Vec<u32>,
    woken_loads: Vec<u32>,
    is_woken: Vec<bool>,
    /// How many nodes there are.
    nodes: usize,
}

/// What an entry is for when the row of its node grew.
#[derive(Clone, Copy, PartialEq, Eq)]
enum Concern {
    Nothing,
    Later,
    Now,
}

impl Watches {
    /// No load waits, of so many nodes and classes.
    pub(crate) fn new(memory: &Memory, nodes: usize, classes: usize) -> Watches {
        Watches {
            lists: memory.filled(NONE, nodes.saturating_add(classes)),
            entries: Vec::new(memory.alloc()),
            free: NONE,
            watched: memory.filled(NOTHING, nodes),
            woken_swaps: Vec::new(memory.alloc()),
            woken_loads: Vec::new(memory.alloc()),
            is_woken: memory.filled(false, nodes),
            nodes,
        }
    }

    /// A load is to be looked at.
    pub(crate) fn wake(&mut self, memory: &Memory, derivation: &Derivation, load: u32) {
        if let Some(is_woken) = self.is_woken.get_mut(load as usize)
            && !*is_woken
        {
            *is_woken = true;
            if derivation.graph.is_swap_load(load) {
                memory.push(&mut self.woken_swaps, load);
            } else {
                memory.push(&mut self.woken_loads, load);
            }
        }
    }

    /// Whether no load is to be looked at.
    pub(crate) fn is_quiet(&self) -> bool {
        self.woken_swaps.is_empty() && self.woken_loads.is_empty()
    }

    /// The swap's load, or other load, that is looked at as the one of this index: it may be woken again then.
    pub(crate) fn woken_at(&mut self, is_swap: bool, index: usize) -> Option<u32> {
        let found = if is_swap {
            self.woken_swaps.get(index).copied()
        } else {
            self.woken_loads.get(index).copied()
        };
        let Some(load) = found else {
            return None;
        };
        if let Some(is_woken) = self.is_woken.get_mut(load as usize) {
            *is_woken = false;
        }
        Some(load)
    }

    /// All swaps' loads, or all other loads, that were woken were looked at.
    pub(crate) fn forget_woken(&mut self, is_swap: bool) {
        if is_swap {
            self.woken_swaps.clear();
        } else {
            self.woken_loads.clear();
        }
    }

    /// What a load waits for.
    #[inline]
    pub(crate) fn watched(&self, load: u32) -> Watched {
        self.watched.get(load as usize).copied().unwrap_or(NOTHING)
    }

    /// The list of the first values of a class.
    pub(crate) fn list_of_class(&self, class: u32) -> u32 {
        narrow(self.nodes).saturating_add(class)
    }

    /// Writes a load into a list.
    fn enlist(&mut self, memory: &Memory, list: u32, load: u32) {
        let entry = Entry {
            load,
            next: item(&self.lists, list),
        };
        let mut at = self.free;
        if let Some(slot) = self.entries.get_mut(at as usize) {
            self.free = slot.next;
            *slot = entry;
        } else {
            at = narrow(self.entries.len());
            memory.push(&mut self.entries, entry);
        }
        put(&mut self.lists, list, at);
    }

    /// A load, of this node, can have read two things, or one that wasn't met yet: from now on it waits for what says more.
    pub(crate) fn watch(&mut self, memory: &Memory, load: u32, node: Node, pair: Pair) {
        let before = self.watched(load);
        let Pair {
            first,
            second,
            part,
        } = pair;
        if before.first == NONE && node.own != NONE {
            self.enlist(memory, node.own, load);
        }
        for store in [first, second] {
            if store != before.first && store != before.second && (store as usize) < self.nodes {
                self.enlist(memory, store, load);
            }
        }
        if let Some(watched) = self.watched.get_mut(load as usize) {
            watched.first = first;
            watched.second = second;
            watched.part = part;
        }
    }

    /// A swap's load can have read the first value of its class.
    pub(crate) fn watch_first(&mut self, memory: &Memory, load: u32, class: u32) {
        let before = self.watched(load);
        if before.first != FIRST && before.second != FIRST {
            let list = self.list_of_class(class);
            self.enlist(memory, list, load);
        }
    }

    /// A load sees a store that may come to follow what it waits for.
    pub(crate) fn watch_seen(&mut self, memory: &Memory, load: u32, store: u32) {
        let Some(watched) = self.watched.get_mut(load as usize) else {
            return;
        };
        if watched.seen != store {
            watched.seen = store;
            self.enlist(memory, store, load);
        }
    }

    /// The row of a node grew: wakes the loads that waited for that.
    pub(crate) fn wake_at(&mut self, memory: &Memory, derivation: &Derivation, number: u32) {
        let mut at = item(&self.lists, number);
        if at == NONE {
            return;
        }
        put(&mut self.lists, number, NONE);
        for _ in 0..self.entries.len() {
            let Some(entry) = self.entries.get(at as usize).copied() else {
                break;
            };
            let concern = self.concern(derivation, number, entry.load);
            if concern == Concern::Now {
                self.wake(memory, derivation, entry.load);
            }
            self.put_back(number, at, concern);
            at = entry.next;
        }
    }

    /// Puts an entry back into its list, or among those that no list has.
    fn put_back(&mut self, list: u32, at: u32, concern: Concern) {
        let next = if concern == Concern::Nothing {
            let next = self.free;
            self.free = at;
            next
        } else {
            let next = item(&self.lists, list);
            put(&mut self.lists, list, at);
            next
        };
        if let Some(entry) = self.entries.get_mut(at as usize) {
            entry.next = next;
        }
    }

    /// What a load has to do with a node whose row grew.
    fn concern(&self, derivation: &Derivation, number: u32, load: u32) -> Concern {
        let Some(node) = derivation.graph.node(load) else {
            return Concern::Nothing;
        };
        let watched = self.watched(load);
        let is_now = if !node.is_open() {
            return Concern::Nothing;
        } else if number == watched.first || number == watched.second {
            watched.second == NONE || derivation.rows.place(number, node.chain) >= node.place
        } else if number == node.own || number == watched.seen {
            covers(derivation, number, watched.first) || covers(derivation, number, watched.second)
        } else {
            return Concern::Nothing;
        };
        if is_now { Concern::Now } else { Concern::Later }
    }

    /// The row of a load whose source isn't known grew: it is to be looked at if one that it waits for comes before it now.
    pub(crate) fn wake_grown(&mut self, memory: &Memory, derivation: &Derivation, load: u32) {
        let watched = self.watched(load);
        let is_first = watched.first == FIRST || watched.second == FIRST;
        if is_first
            || covers(derivation, load, watched.first)
            || covers(derivation, load, watched.second)
        {
            self.wake(memory, derivation, load);
        }
    }

    /// A swap read what a list is of: wakes the other swaps that wait for it.
    pub(crate) fn wake_swaps(&mut self, memory: &Memory, derivation: &Derivation, list: u32) {
        let mut at = item(&self.lists, list);
        for _ in 0..self.entries.len() {
            let Some(entry) = self.entries.get(at as usize).copied() else {
                break;
            };
            if let Some(node) = derivation.graph.node(entry.load)
                && node.kind == Kind::SwapLoad
                && node.is_open()
            {
                self.wake(memory, derivation, entry.load);
            }
            at = entry.next;
        }
    }
}

/// Whether a store, if it is one, is known to come before another node.
pub(crate) fn covers(derivation: &Derivation, number: u32, store: u32) -> bool {
    match derivation.graph.node(store) {
        Some(_) => derivation.reaches(store, number),
        None => false,
    }
}
