//! Cases, and what they suppose.

use crate::edges::Why;
use crate::eliminations::{Elimination, is_open};
use search_memory::Memory;

/// What is looked at in parts, of which each order of a log keeps one.
#[derive(Clone, Copy, Debug)]
pub(crate) enum Case {
    /// What this load read: each store that is left, and the first value.
    Source(u32),
    /// Which of these two stores comes first; first it is supposed that it is `first`.
    Order { first: u32, second: u32 },
}

/// What a part of a case supposes, by nodes.
#[derive(Clone, Copy)]
pub(crate) enum Supposed {
    /// The load read this source.
    Source { load: u32, source: u32 },
    /// The first comes before the second.
    Before { first: u32, second: u32 },
}

/// A case that isn't refuted yet.
#[derive(Debug, Drop)]
pub(crate) struct OpenCase {
    pub(crate) case: Case,
    /// Of a load's source what it can have read, in the order in which it is supposed.
    pub(crate) sources: Vec<u32>,
    /// How many parts are refuted.
    pub(crate) tried: usize,
}

impl OpenCase {
    /// What the part supposes that is looked at now; None where all are refuted.
    pub(crate) fn supposed(&self) -> Option<Supposed> {
        match (self.case, self.tried) {
            (Case::Source(load), tried) => {
                let source = self.sources.get(tried).copied()?;
                Some(Supposed::Source { load, source })
            }
            (Case::Order { first, second }, 0) => Some(Supposed::Before { first, second }),
            (Case::Order { first, second }, 1) => Some(Supposed::Before {
                first: second,
                second: first,
            }),
            (Case::Order { .. }, _) => None,
        }
    }

    /// Whether the part that is looked at now is the second one of an order, after which there is none.
    pub(crate) fn is_second(&self) -> bool {
        matches!(self.case, Case::Order { .. }) && self.tried == 1
    }
}

impl Elimination {
    /// Something is supposed: all that follows is looked for.
    pub(crate) fn suppose(&mut self, memory: &Memory, supposed: Supposed) {
        match supposed {
            Supposed::Source { load, source } => {
                if is_open(&self.derivation.graph.nodes, load) {
                    self.learn(memory, load, source);
                }
            }
            Supposed::Before { first, second } => {
                self.derivation.infer(memory, first, second, Why::Supposed);
            }
        }
        self.settle(memory);
        self.finish(memory);
    }
}
