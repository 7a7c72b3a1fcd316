//! Judges of what is kept of a log.

use log_search::Judge;
use log_selections::Kept;
use tso_ops::OutOfMemory;

/// Accuses all that has some operations, by processors and indices, and counts how often it was asked.
#[derive(Drop)]
pub(super) struct Needing {
    /// The operations.
    pub(super) needed: &'static [(usize, usize)],
    /// How often it was asked.
    pub(super) asked: usize,
}

impl Judge for Needing {
    fn accuses(&mut self, kept: &[Vec<Kept>]) -> Result<bool, OutOfMemory> {
        self.asked = self.asked.saturating_add(1);
        for operation in self.needed {
            if !has(kept, *operation) {
                return Ok(false);
            }
        }
        Ok(true)
    }
}

/// Accuses what has the first operation, and the second one if it has the third.
#[derive(Drop)]
pub(super) struct Conditional {
    /// The three operations, by processors and indices.
    pub(super) operations: [(usize, usize); 3],
}

impl Judge for Conditional {
    fn accuses(&mut self, kept: &[Vec<Kept>]) -> Result<bool, OutOfMemory> {
        let [needed, second, third] = self.operations;
        Ok(has(kept, needed) && (has(kept, second) || !has(kept, third)))
    }
}

/// Whether a processor's operation of this index is among these.
fn has(kept: &[Vec<Kept>], operation: (usize, usize)) -> bool {
    let (p, index) = operation;
    match kept.get(p) {
        Some(list) => list.iter().any(|kept| kept.index == index),
        None => false,
    }
}
