//! What comes next where something may be lost by it, and the pair to suppose about where nothing can.

use super::{Outcome, Simulation};
use bitsets::word_at;

/// Two stores of one address: the first came, and the second is ready but for loads of the first that are left.
#[derive(Clone, Copy)]
pub(crate) struct Pair {
    pub(crate) first: usize,
    pub(crate) second: usize,
}

impl Simulation<'_> {
    /// Of the chains whose next event can come that whose loads are the nearest.
    pub(super) fn best_choice(&mut self) -> Option<usize> {
        let mut best = None;
        let mut least = usize::MAX;
        for chain in 0..self.chains.count() {
            if let Some(n) = self.next_of(chain)
                && self.is_ready(chain, n)
            {
                let far = self.farthest_reader(self.trace.swap_store(n).unwrap_or(n));
                if far < least || best.is_none() {
                    best = Some(chain);
                    least = far;
                }
            }
        }
        best
    }

    /// How many events of its processor come before the farthest load that is left of a store.
    fn farthest_reader(&self, store: usize) -> usize {
        let mut far = 0;
        let row = self.trace.reader_words(store);
        for place in 0..row.len() {
            far = far.max(self.farthest_in_word(place, word_at(row, place)));
        }
        far
    }

    /// The same for the loads in a word of a row.
    fn farthest_in_word(&self, place: usize, word: u64) -> usize {
        let mut far: usize = 0;
        let mut left = word;
        for _ in 0..64 {
            if left == 0 {
                return far;
            }
            let load = place
                .saturating_mul(64)
                .saturating_add(left.trailing_zeros() as usize);
            far = far.max(self.distance_of(load));
            left &= left.wrapping_sub(1);
        }
        far
    }

    /// How far a load is from the next load of its processor; 0 where it has come.
    fn distance_of(&self, load: usize) -> usize {
        match self.chains.of(load) {
            Some(chain) => match self.next_of(chain) {
                Some(next) => load.saturating_add(1).saturating_sub(next),
                None => 0,
            },
            None => 0,
        }
    }

    /// Of the stores that are ready but for loads of the store before, that whose store before came first.
    pub(super) fn stuck(&mut self) -> Outcome {
        let mut found: Option<Pair> = None;
        for chain in 0..self.chains.count() {
            if let Some(pair) = self.pair_of(chain)
                && self.came_before(pair, found)
            {
                found = Some(pair);
            }
        }
        match found {
            Some(pair) => Outcome::Stuck(pair),
            None => Outcome::Lost,
        }
    }

    /// The pair of the next store of a chain, if it is free.
    fn pair_of(&mut self, chain: usize) -> Option<Pair> {
        let Some(n) = self.next_of(chain) else {
            return None;
        };
        if !self.is_free(chain, n) {
            return None;
        }
        let second = self.trace.swap_store(n).unwrap_or(n);
        if !self.trace.is_store(second) {
            return None;
        }
        let first = self.latest_before(second);
        if first == 0 {
            None
        } else {
            Some(Pair { first, second })
        }
    }

    /// Whether the first store of a pair came before that of the other pair.
    fn came_before(&self, pair: Pair, other: Option<Pair>) -> bool {
        let Some(other) = other else {
            return true;
        };
        for n in self.order.iter() {
            if *n == other.first as u64 {
                return false;
            }
            if *n == pair.first as u64 {
                return true;
            }
        }
        false
    }
}
