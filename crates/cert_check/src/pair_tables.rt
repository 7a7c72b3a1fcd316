//! Sets of pairs of numbers, in which a pair is looked up at once.
ghost use Rattle.std.specs.Prelude.{◌≡◌, ◌⊎◌, ◌↔◌, ◌<◌, ◌^◌, ℕ, IsTrue, IfOk};
ghost use Rattle.cert_check.specs.PairTables.{HasPair, IsSquare};

use bitsets::{BitTable, bit, clear_bit, set_bit};
use std::alloc::{AllocError, Global};

/// A set of pairs of numbers below `nodes`, as a bit for each two of them: a row of `width` words for each first number.
#[derive(Debug, Drop)]
pub struct PairTable {
    nodes: usize,
    width: usize,
    words: Vec<u64>,
}

impl PairTable {
    /// The table without a pair, or OutOfMemory where its allocation was refused.
    pub fn new(alloc: Global, nodes: usize) -> Result<PairTable, AllocError>
        requires { nodes < 2 ^ 32 }
        ensures square { IfOk result IsSquare }
        ensures nodes { IfOk result (λ table. table.nodes ≡ nodes) }
        ensures empty { IfOk result (λ table. (u v : ℕ) → HasPair table u v → ⊥) }
    {
        let width = nodes.div_ceil(64);
        Ok(PairTable {
            nodes,
            width,
            words: vec![in alloc; 0; nodes * width]?,
        })
    }

    /// Whether the table has the pair. It has none with a number of `nodes` or above.
    #[inline]
    pub fn has(&self, u: usize, v: usize) -> bool
        requires { IsSquare self.now }
        ensures { IsTrue result ↔ HasPair self.now u v }
    {
        let table = BitTable {
            words: &self.words,
            width: self.width,
        };
        u < self.nodes && v < self.nodes && bit(table, u, v)
    }

    /// Adds a pair.
    #[inline]
    pub fn add(&mut self, from: usize, to: usize)
        requires square { IsSquare self.old }
        requires from { from < self.old.nodes }
        requires to { to < self.old.nodes }
        ensures square { IsSquare self.new }
        ensures nodes { self.new.nodes ≡ self.old.nodes }
        ensures pairs { (u v : ℕ) → HasPair self.new u v ↔ (HasPair self.old u v ⊎ ((from ≡ u) × (to ≡ v))) }
    {
        set_bit(&mut self.words, self.width, from, to);
    }

    /// Takes a pair away.
    #[inline]
    pub fn remove(&mut self, from: usize, to: usize)
        requires square { IsSquare self.old }
        requires from { from < self.old.nodes }
        requires to { to < self.old.nodes }
        ensures square { IsSquare self.new }
        ensures nodes { self.new.nodes ≡ self.old.nodes }
        ensures pairs { (u v : ℕ) → HasPair self.new u v ↔ (HasPair self.old u v × ((from ≡ u) × (to ≡ v) → ⊥)) }
    {
        clear_bit(&mut self.words, self.width, from, to);
    }
}
