//! What comes next where something may be lost by it.

use super::{Choice, MOST_RETURNS, Simulation};
use crate::nodes::Node;
use crate::numbers::{item, narrow};

/// A chain whose next member can come: less the more loads lose a source by it, and less the farther its loads are.
type Candidate = (u32, u32, u32);

impl Simulation<'_> {
    /// Lets a node come by which the fewest loads lose a source, and of those the one whose loads are the nearest: whether one can.
    pub(super) fn choose(&mut self) -> bool {
        let mut candidates: Vec<Candidate> = Vec::new(self.memory.alloc());
        for chain in 0..narrow(self.graph.chains.len()) {
            if let Some(number) = self.next_of(chain)
                && self.is_ready(chain, number)
                && let Some((number, store)) = self.store_of(number)
            {
                let kept = u32::MAX.saturating_sub(self.lost_by(number, store));
                let near = u32::MAX.saturating_sub(self.farthest_reader(store));
                self.memory.push(&mut candidates, (kept, near, chain));
            }
        }
        candidates.sort_unstable_by_key(|candidate: &Candidate| {
            (candidate.0, candidate.1, candidate.2)
        });
        let mut others = self.memory.room(candidates.len());
        for candidate in &candidates {
            self.memory.push(&mut others, candidate.2);
        }
        let choice = Choice {
            came: self.trail.len(),
            others,
        };
        self.memory.push(&mut self.choices, choice);
        self.take_best()
    }

    /// Lets the best node of the last choice come, if there is one.
    fn take_best(&mut self) -> bool {
        let Some(choice) = self.choices.last_mut() else {
            return false;
        };
        match choice.others.pop() {
            Some(chain) => {
                self.take_next(chain);
                true
            }
            None => {
                self.choices.pop();
                false
            }
        }
    }

    /// Goes back to the last choice that has another node, and lets that come: whether there is one, and it may go back.
    pub(super) fn choose_another(&mut self) -> bool {
        for _ in 0..usize::MAX {
            let Some(choice) = self.choices.last() else {
                return false;
            };
            if self.returns >= MOST_RETURNS {
                return false;
            }
            self.returns = self.returns.saturating_add(1);
            let came = choice.came;
            self.take_back(came);
            if self.take_best() {
                return true;
            }
        }
        false
    }

    /// How many loads of its processor come before the farthest load that is left of a store.
    fn farthest_reader(&self, store: Node) -> u32 {
        let mut far = 0;
        let mut reader = store.source;
        for _ in 0..self.graph.nodes.len() {
            let Some(load) = self.graph.node(reader) else {
                break;
            };
            far = far.max(load.place.saturating_sub(item(&self.come, load.chain)));
            reader = load.before;
        }
        far
    }
}
