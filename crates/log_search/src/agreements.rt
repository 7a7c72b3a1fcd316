//! What is the same whichever store a load read.

use crate::eliminations::{Elimination, is_open};
use crate::looks::Answer;
use search_memory::Memory;

/// At the end all loads whose source isn't known are looked at so many times divided by how many they are, where something was
/// new each time, also for what is the same whichever store they read.
const LAST_LOOKS: usize = 100_000;

/// And at least so many times.
const LEAST_LAST_LOOKS: usize = 1;

/// In each window the last swaps whose sources aren't known are looked at so many times so, where something was new each time.
const SWAP_LOOKS: usize = 8;

/// So many swaps.
const LAST_SWAPS: usize = 256;

/// Which loads are looked at.
#[derive(Clone, Copy, PartialEq, Eq)]
enum Loads {
    All,
    Swaps,
}

impl Elimination {
    /// Looks again for what follows from the sources that were found: rows that waited may have hidden it.
    fn look_past(&mut self, memory: &Memory) {
        for index in 0..self.open.len() {
            if self.derivation.is_stopped(memory) {
                break;
            }
            if let Some(load) = self.open.get(index).copied() {
                self.derivation.put_before_later(memory, load);
            }
        }
    }

    /// Looks at all loads that are left, and for what is the same whichever store they read, some times while something is new.
    pub(crate) fn finish(&mut self, memory: &Memory) {
        self.look_past(memory);
        self.settle(memory);
        let most = LAST_LOOKS.checked_div(self.open.len()).unwrap_or(0);
        for _ in 0..most.max(LEAST_LAST_LOOKS) {
            self.open = self.still_open(memory, &self.open, usize::MAX);
            let is_new = self.agree(memory, Loads::All);
            if !is_new || self.derivation.is_stopped(memory) {
                break;
            }
            self.settle(memory);
        }
    }

    /// Looks so at the last swaps that were met.
    pub(crate) fn agree_on_swaps(&mut self, memory: &Memory) {
        self.swaps = self.still_open(memory, &self.swaps, LAST_SWAPS);
        for _ in 0..SWAP_LOOKS {
            let is_new = self.agree(memory, Loads::Swaps);
            if !is_new || self.derivation.is_stopped(memory) {
                break;
            }
            self.settle(memory);
        }
    }

    /// Those of some loads whose sources aren't known, but only so many of the last of the loads.
    fn still_open(&self, memory: &Memory, loads: &[u32], most: usize) -> Vec<u32> {
        let mut kept = Vec::new(memory.alloc());
        for load in &loads[loads.len().saturating_sub(most)..] {
            if is_open(&self.derivation.graph.nodes, *load) {
                memory.push(&mut kept, *load);
            }
        }
        kept
    }

    /// The load at an index among those that are looked at.
    fn load_at(&self, loads: Loads, index: usize) -> Option<u32> {
        match loads {
            Loads::All => self.open.get(index).copied(),
            Loads::Swaps => self.swaps.get(index).copied(),
        }
    }

    /// Looks at each of these loads that is left for what is the same whichever store it read: whether something was new.
    fn agree(&mut self, memory: &Memory, loads: Loads) -> bool {
        let mut is_new = false;
        for index in 0..usize::MAX {
            let Some(load) = self.load_at(loads, index) else {
                break;
            };
            if self.derivation.is_stopped(memory) {
                return false;
            }
            if is_open(&self.derivation.graph.nodes, load) {
                is_new |= self.agree_at(memory, load);
            }
        }
        is_new
    }

    /// What is the same whichever store a load read: whether something is new.
    fn agree_at(&mut self, memory: &Memory, load: u32) -> bool {
        let derivation = &mut self.derivation;
        match self
            .looks
            .look(memory, derivation, &mut self.candidates, load)
        {
            Answer::Several => {
                let is_in = self.looks.agree_in(memory, derivation);
                let is_out = self.looks.agree_out(memory, derivation);
                is_in || is_out
            }
            Answer::Nothing | Answer::One(_) => {
                self.watches.wake(memory, &self.derivation, load);
                true
            }
        }
    }
}
