//! A look at a load whose source isn't known: what it can have read, as far as it is known what comes before what.

use crate::candidates::{Candidates, Part};
use crate::derivation::Derivation;
use crate::edges::Why;
use crate::glances::processor_of;
use crate::nodes::{FIRST, Kind, Node};
use crate::numbers::{NONE, item, narrow};
use search_memory::Memory;
use std::alloc::Global;

/// What a load can have read.
#[derive(Clone, Copy, PartialEq, Eq)]
pub(crate) enum Answer {
    /// Nothing.
    Nothing,
    /// This store, or `FIRST`.
    One(u32),
    /// Several.
    Several,
}

/// The first and the last store of a chain that a load can have read.
#[derive(Clone, Copy)]
struct Left {
    chain: u32,
    first: u32,
    last: u32,
}

/// The load that is looked at, and what is found of it.
#[derive(Drop)]
pub(crate) struct Looks {
    pub(crate) load: u32,
    /// The last store of each chain to its address that it sees, but for some that others of these follow.
    pub(crate) seen: Vec<u32>,
    left: Vec<Left>,
    has_first: bool,
    /// Whether one of the stores left was forwarded, if the load read it.
    has_own: bool,
    /// For each chain the last place that reaches, or is, each store that is left.
    places: Vec<u32>,
}

impl Looks {
    /// No load was looked at.
    pub(crate) fn new(alloc: Global) -> Looks {
        Looks {
            load: NONE,
            seen: Vec::new(alloc),
            left: Vec::new(alloc),
            has_first: false,
            has_own: false,
            places: Vec::new(alloc),
        }
    }

    /// Looks at a load: what it can have read.
    pub(crate) fn look(
        &mut self,
        memory: &Memory,
        derivation: &mut Derivation,
        candidates: &mut Candidates,
        load: u32,
    ) -> Answer {
        let Some(node) = derivation.graph.node(load) else {
            return Answer::Several;
        };
        self.find_seen(memory, derivation, load, node);
        let is_swap = node.kind == Kind::SwapLoad;
        self.has_first = self.seen.is_empty() && candidates.has_first(load, is_swap);
        self.has_own = false;
        self.left.clear();
        let (start, end) = candidates.parts_of(load);
        let reads = end.saturating_sub(start).saturating_add(1) as usize;
        derivation
            .work
            .spend(reads.saturating_mul(self.seen.len().saturating_add(4)));
        for index in start..end {
            if let Some(part) = candidates.part(index) {
                self.look_at_part(memory, derivation, candidates, node, (index, part));
            }
        }
        self.answer(derivation)
    }

    fn answer(&self, derivation: &Derivation) -> Answer {
        match (self.left.first().copied(), self.has_first) {
            (None, true) => Answer::One(FIRST),
            (None, false) => Answer::Nothing,
            (Some(left), false) if self.left.len() == 1 && left.first == left.last => {
                match derivation.graph.chains.member(left.chain, left.first) {
                    Some(store) => Answer::One(store),
                    None => Answer::Several,
                }
            }
            _ => Answer::Several,
        }
    }

    /// Finds what the load sees: its own last store, and others that reach it.
    pub(crate) fn find_seen(
        &mut self,
        memory: &Memory,
        derivation: &mut Derivation,
        load: u32,
        node: Node,
    ) {
        self.load = load;
        self.seen.clear();
        if node.own != NONE {
            memory.push(&mut self.seen, node.own);
        }
        let (first, last) = derivation.graph.nodes_of(node.processor);
        let (start, end) = derivation.graph.groups.range(node.address);
        for index in start..end {
            let Some(group) = derivation.graph.groups.get(index) else {
                break;
            };
            let place = derivation.rows.place(self.load, group.chain);
            if place == 0 || self.has_seen(derivation, group.chain, place) {
                continue;
            }
            let place = derivation.graph.groups.last_place(index, place);
            if let Some(store) = derivation.graph.chains.member(group.chain, place)
                && (store < first || store >= last)
            {
                memory.push(&mut self.seen, store);
            }
        }
    }

    /// Whether one of the stores found so far that the load sees comes after all up to a place of a chain.
    fn has_seen(&self, derivation: &Derivation, chain: u32, place: u32) -> bool {
        for store in &self.seen {
            if derivation.rows.place(*store, chain) >= place {
                return true;
            }
        }
        false
    }

    /// Whether a store that the load sees is known to come before another one.
    pub(crate) fn is_followed(&self, derivation: &Derivation, store: u32) -> bool {
        for other in &self.seen {
            if *other != store && derivation.reaches(store, *other) {
                return true;
            }
        }
        false
    }

    /// What is left of the stores of one chain.
    fn look_at_part(
        &mut self,
        memory: &Memory,
        derivation: &Derivation,
        candidates: &mut Candidates,
        node: Node,
        indexed: (u32, Part),
    ) {
        let (index, part) = indexed;
        let mut past = 0;
        for store in &self.seen {
            past = past.max(derivation.rows.place(*store, part.chain));
        }
        let mut start = candidates.find_end(index, past);
        let is_own = processor_of(derivation, candidates, part) == node.processor;
        if node.kind == Kind::SwapLoad {
            start = candidates.first_left(start);
        }
        let mut end = if is_own {
            own_end(derivation, candidates, node, part)
        } else {
            first_behind(derivation, candidates, self.load, part, start)
        };
        if node.kind == Kind::SwapLoad {
            end = candidates.end_left(end);
        }
        if start < end {
            self.has_own |= is_own;
            memory.push(
                &mut self.left,
                Left {
                    chain: part.chain,
                    first: candidates.place(start),
                    last: candidates.place(end.saturating_sub(1)),
                },
            );
        }
    }

    /// What comes before all that the load can have read comes before it: whether something new does.
    pub(crate) fn agree_in(&mut self, memory: &Memory, derivation: &mut Derivation) -> bool {
        if self.has_first || self.has_own {
            return false;
        }
        let width = derivation.rows.width();
        derivation.work.spend(width.saturating_mul(self.left.len()));
        self.places.clear();
        for _ in 0..width {
            memory.push(&mut self.places, u32::MAX);
        }
        for left in &self.left {
            if let Some(store) = derivation.graph.chains.member(left.chain, left.first) {
                derivation
                    .rows
                    .lower(&mut self.places, store, left.chain, left.first);
            }
        }
        let mut is_new = false;
        for chain in (0..narrow(width)).rev() {
            is_new |= self.put_place_before(memory, derivation, chain);
        }
        is_new
    }

    /// The place of a chain up to which all comes before what the load can have read comes before it: whether that is new.
    fn put_place_before(&self, memory: &Memory, derivation: &mut Derivation, chain: u32) -> bool {
        let place = item(&self.places, chain);
        if place > derivation.rows.place(self.load, chain)
            && let Some(before) = derivation.graph.chains.member(chain, place)
            && let Some(node) = derivation.graph.node(before)
            && node.kind != Kind::Stbar
        {
            derivation.infer(memory, before, self.load, Why::AgreeIn(self.load));
            return true;
        }
        false
    }

    /// The load comes before what all that it can have read comes before: whether that is new.
    pub(crate) fn agree_out(&mut self, memory: &Memory, derivation: &mut Derivation) -> bool {
        let Some(node) = derivation.graph.node(self.load) else {
            return false;
        };
        let (start, end) = derivation.graph.groups.range(node.address);
        let reads = end.saturating_sub(start) as usize;
        derivation
            .work
            .spend(reads.saturating_mul(self.left.len().saturating_add(4)));
        let mut is_new = false;
        for index in start..end {
            is_new |= self.put_before_group(memory, derivation, index);
        }
        is_new
    }

    /// The load comes before the first store of a group that comes after all that it can have read: whether that is new.
    fn put_before_group(&self, memory: &Memory, derivation: &mut Derivation, index: u32) -> bool {
        let Some(group) = derivation.graph.groups.get(index) else {
            return false;
        };
        let mut past = derivation.rows.place(self.load, group.chain);
        for left in &self.left {
            if left.chain == group.chain {
                past = past.max(left.last);
            }
        }
        let range = derivation.graph.groups.after(group, past);
        let found = self.first_after(derivation, group.chain, range);
        let place = derivation.graph.groups.place(found);
        if found < range.1
            && let Some(store) = derivation.graph.chains.member(group.chain, place)
            && !derivation.reaches(self.load, store)
            && self.covers(derivation, store)
        {
            derivation.infer(memory, self.load, store, Why::AgreeOut(self.load));
            return true;
        }
        false
    }

    /// The first index among those of a group's stores that has one after the load, or after all that it can have read. It looks
    /// near first.
    fn first_after(&self, derivation: &Derivation, chain: u32, range: (u32, u32)) -> u32 {
        let (mut low, end) = range;
        let mut high = low;
        let mut step: u32 = 1;
        for _ in 0..u32::BITS {
            if high >= end {
                high = end;
                break;
            }
            if self.is_after(derivation, chain, high) {
                break;
            }
            low = high.saturating_add(1);
            high = low.saturating_add(step);
            step = step.saturating_mul(2);
        }
        for _ in 0..u32::BITS {
            if low >= high {
                break;
            }
            let middle = low + (high - low) / 2;
            if self.is_after(derivation, chain, middle) {
                high = middle;
            } else {
                low = middle + 1;
            }
        }
        low
    }

    fn is_after(&self, derivation: &Derivation, chain: u32, index: u32) -> bool {
        let place = derivation.graph.groups.place(index);
        match derivation.graph.chains.member(chain, place) {
            Some(store) => derivation.reaches(self.load, store) || self.covers(derivation, store),
            None => false,
        }
    }

    /// Whether all stores that the load can have read come before a store.
    fn covers(&self, derivation: &Derivation, store: u32) -> bool {
        for left in &self.left {
            if derivation.rows.place(store, left.chain) < left.last {
                return false;
            }
        }
        true
    }
}

/// The end of those of a part's stores that stand before a load of their processor.
pub(crate) fn own_end(
    derivation: &Derivation,
    candidates: &Candidates,
    load: Node,
    part: Part,
) -> u32 {
    match derivation.graph.node(load.own) {
        Some(own) => candidates.end_up_to(part, own.place),
        None => part.start,
    }
}

/// The index of the first of a part's stores, from one on, that comes after a load. It looks near first.
fn first_behind(
    derivation: &Derivation,
    candidates: &Candidates,
    load: u32,
    part: Part,
    start: u32,
) -> u32 {
    let mut low = start;
    let mut high = start;
    let mut step: u32 = 1;
    for _ in 0..u32::BITS {
        if high >= part.end {
            high = part.end;
            break;
        }
        if is_behind(derivation, candidates, load, part, high) {
            break;
        }
        low = high.saturating_add(1);
        high = low.saturating_add(step);
        step = step.saturating_mul(2);
    }
    for _ in 0..u32::BITS {
        if low >= high {
            break;
        }
        let middle = low + (high - low) / 2;
        if is_behind(derivation, candidates, load, part, middle) {
            high = middle;
        } else {
            low = middle + 1;
        }
    }
    low.min(part.end)
}

/// Whether the store at an index of a part comes after a load.
fn is_behind(
    derivation: &Derivation,
    candidates: &Candidates,
    load: u32,
    part: Part,
    index: u32,
) -> bool {
    match derivation
        .graph
        .chains
        .member(part.chain, candidates.place(index))
    {
        Some(store) => derivation.reaches(load, store),
        None => false,
    }
}
