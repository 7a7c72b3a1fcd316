//! What a simulation is stuck at.

use super::Simulation;
use crate::deciding::cases::Case;
use crate::nodes::{FIRST, Kind};
use crate::numbers::{NONE, item, narrow};

/// A load that waits for a value, and how many stores have it.
#[derive(Clone, Copy)]
struct Waiting {
    load: u32,
    sources: u32,
}

impl Simulation<'_> {
    /// No node can come next: notes what is to be looked at, if the fewest nodes are left so far.
    pub(super) fn note_stuck(&mut self) {
        if self.left >= self.least_left {
            return;
        }
        self.least_left = self.left;
        self.stuck = self.stuck_case();
    }

    /// What is to be looked at: what a load read that waits for a value, of these the one with the fewest sources; else which of two
    /// stores comes first; else what any other load read.
    fn stuck_case(&mut self) -> Option<Case> {
        if let Some(load) = self.waiting_load() {
            return Some(Case::Source(load));
        }
        if let Some(case) = self.stuck_pair() {
            return Some(case);
        }
        match self.any_open() {
            Some(load) => Some(Case::Source(load)),
            None => None,
        }
    }

    fn waiting_load(&mut self) -> Option<u32> {
        let mut found: Option<Waiting> = None;
        for chain in 0..narrow(self.graph.chains.len()) {
            if let Some(load) = self.next_of(chain)
                && let Some(node) = self.graph.node(load)
                && node.is_open()
                && self.is_free(chain, load, NONE)
                && !self.reads_right(load, node)
            {
                found = Some(self.fewer(found, load));
            }
        }
        match found {
            Some(waiting) => Some(waiting.load),
            None => None,
        }
    }

    /// Of a load that was found and another one the one with fewer sources.
    fn fewer(&self, found: Option<Waiting>, load: u32) -> Waiting {
        let sources = self.candidates.count(load);
        match found {
            Some(waiting) if waiting.sources <= sources => waiting,
            _ => Waiting { load, sources },
        }
    }

    /// Of the stores that are ready but for loads of the store before, that whose store before came first, and that one.
    fn stuck_pair(&mut self) -> Option<Case> {
        let mut best = None;
        let mut least = usize::MAX;
        for chain in 0..narrow(self.graph.chains.len()) {
            if let Some(number) = self.next_of(chain)
                && let Some((first, second)) = self.pair_of(chain, number)
            {
                let place = self.place_of(second);
                if place < least {
                    best = Some(Case::Order { first, second });
                    least = place;
                }
            }
        }
        best
    }

    /// A store that comes with the next member of a chain, if all before that has come, and the last store to its address.
    fn pair_of(&mut self, chain: u32, number: u32) -> Option<(u32, u32)> {
        let node = self.graph.node(number)?;
        if node.kind == Kind::SwapStore || !self.is_free(chain, number, NONE) {
            return None;
        }
        let (store, node) = self.store_of(number)?;
        let latest = item(&self.latest, node.address);
        if latest == FIRST {
            None
        } else {
            Some((store, latest))
        }
    }

    /// The place of a store among those that have come.
    fn place_of(&self, store: u32) -> usize {
        for (place, other) in self.stores.iter().enumerate() {
            if *other == store {
                return place;
            }
        }
        usize::MAX
    }

    /// A load that hasn't come, and whose source isn't known.
    fn any_open(&self) -> Option<u32> {
        let mut found = None;
        for (number, node) in self.graph.nodes.iter().enumerate() {
            if node.is_open() && item(&self.come, node.chain) < node.place {
                found = Some(self.fewer(found, narrow(number)));
            }
        }
        match found {
            Some(waiting) => Some(waiting.load),
            None => None,
        }
    }
}
