//! All that a load can have read.

use crate::candidates::{Candidates, Part};
use crate::derivation::Derivation;
use crate::glances::processor_of;
use crate::looks::{Looks, own_end};
use crate::nodes::{FIRST, Kind, Node};
use search_memory::Memory;

impl Looks {
    /// All that a load can have read, as far as it is known what comes before what.
    pub(crate) fn list_sources(
        &mut self,
        memory: &Memory,
        derivation: &mut Derivation,
        candidates: &mut Candidates,
        load: u32,
    ) -> Vec<u32> {
        let mut sources = Vec::new(memory.alloc());
        let Some(node) = derivation.graph.node(load) else {
            return sources;
        };
        self.find_seen(memory, derivation, load, node);
        if self.seen.is_empty() && candidates.has_first(load, node.kind == Kind::SwapLoad) {
            memory.push(&mut sources, FIRST);
        }
        let (start, end) = candidates.parts_of(load);
        for index in start..end {
            if let Some(part) = candidates.part(index) {
                let first = candidates.find_end(index, self.past(derivation, part));
                self.list_part(
                    memory,
                    derivation,
                    candidates,
                    node,
                    (first, part),
                    &mut sources,
                );
            }
        }
        sources
    }

    /// The last place of a part's chain that a store follows which the load sees.
    fn past(&self, derivation: &Derivation, part: Part) -> u32 {
        let mut past = 0;
        for store in &self.seen {
            past = past.max(derivation.rows.place(*store, part.chain));
        }
        past
    }

    /// Lists those of a part's stores, from an index on, that the load can have read.
    fn list_part(
        &self,
        memory: &Memory,
        derivation: &Derivation,
        candidates: &mut Candidates,
        node: Node,
        begun: (u32, Part),
        sources: &mut Vec<u32>,
    ) {
        let (first, part) = begun;
        let is_own = processor_of(derivation, candidates, part) == node.processor;
        let end = if is_own {
            own_end(derivation, candidates, node, part)
        } else {
            part.end
        };
        for index in first..end {
            let is_taken = node.kind == Kind::SwapLoad && candidates.first_left(index) != index;
            if let Some(store) = derivation
                .graph
                .chains
                .member(part.chain, candidates.place(index))
                && !is_taken
                && (is_own || !derivation.reaches(self.load, store))
            {
                memory.push(sources, store);
            }
        }
    }
}
