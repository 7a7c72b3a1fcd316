//! A glance at a load whose source isn't known: whether it can have read several.

use crate::candidates::{Candidates, Part};
use crate::derivation::Derivation;
use crate::looks::{Looks, own_end};
use crate::nodes::{FIRST, Kind, Node};
use crate::numbers::NONE;
use search_memory::Memory;

/// The first two that are found which a load can have read: `NONE` in place of what isn't there.
#[derive(Clone, Copy)]
pub(crate) struct Pair {
    pub(crate) first: u32,
    pub(crate) second: u32,
    /// The index of the first part of which something may be left.
    pub(crate) part: u32,
}

impl Pair {
    fn add(&mut self, source: u32) {
        if self.first == NONE {
            self.first = source;
        } else {
            self.second = source;
        }
    }

    fn is_full(self) -> bool {
        self.second != NONE
    }
}

impl Looks {
    /// Two that a load can have read, or all where these are fewer. Of the parts before one nothing is left.
    pub(crate) fn glance(
        &mut self,
        memory: &Memory,
        derivation: &mut Derivation,
        candidates: &mut Candidates,
        load: u32,
        from: u32,
    ) -> Pair {
        let mut pair = Pair {
            first: NONE,
            second: NONE,
            part: from,
        };
        let Some(node) = derivation.graph.node(load) else {
            return pair;
        };
        self.find_seen(memory, derivation, load, node);
        let is_swap = node.kind == Kind::SwapLoad;
        if self.seen.is_empty() && candidates.has_first(load, is_swap) {
            pair.add(FIRST);
        }
        let (start, end) = candidates.parts_of(load);
        derivation
            .work
            .spend(self.seen.len().saturating_mul(4).saturating_add(8));
        pair.part = from.max(start);
        for index in pair.part..end {
            if pair.is_full() {
                break;
            }
            if pair.first == NONE {
                pair.part = index;
            }
            if let Some(part) = candidates.part(index) {
                self.glance_at_part(derivation, candidates, node, (index, part), &mut pair);
            }
        }
        pair
    }

    /// The first two of a part's stores that the load can have read.
    fn glance_at_part(
        &self,
        derivation: &mut Derivation,
        candidates: &mut Candidates,
        node: Node,
        indexed: (u32, Part),
        pair: &mut Pair,
    ) {
        let (index, part) = indexed;
        let mut past = 0;
        for store in &self.seen {
            past = past.max(derivation.rows.place(*store, part.chain));
        }
        derivation.work.spend(self.seen.len().saturating_add(8));
        let processor = processor_of(derivation, candidates, part);
        let is_own = processor == node.processor;
        let end = if is_own {
            own_end(derivation, candidates, node, part)
        } else {
            part.end
        };
        let front = derivation.fronts.node(processor);
        let mut at = candidates.find_end(index, past);
        for _ in 0..2_usize {
            if node.kind == Kind::SwapLoad {
                at = candidates.first_left(at);
            }
            let place = candidates.place(at);
            if at < end
                && !pair.is_full()
                && let Some(store) = derivation.graph.chains.member(part.chain, place)
                && (is_own || store >= front || !derivation.reaches(self.load, store))
            {
                pair.add(store);
                at = at.saturating_add(1);
            } else {
                break;
            }
        }
    }
}

/// The processor whose stores a part has.
pub(crate) fn processor_of(derivation: &Derivation, candidates: &Candidates, part: Part) -> u32 {
    let first = derivation
        .graph
        .chains
        .member(part.chain, candidates.place(part.start));
    match first {
        Some(first) => match derivation.graph.node(first) {
            Some(store) => store.processor,
            None => NONE,
        },
        None => NONE,
    }
}
