//! Rows of edges, from which a graph is made at once.

ghost use Rattle.std.specs.Prelude.{◌≡◌, ◌⊎◌, ◌↔◌, ◌<◌, ◌^◌, ℕ, IsTrue, IfOk};
ghost use Rattle.bitsets.specs.Rows.{HasNumber};
ghost use Rattle.order_graph.specs.Internal.Tables.{IsTable};
ghost use Rattle.order_graph.specs.Digraphs.{IsEdge, EdgesWithin};
ghost use Rattle.order_graph.specs.Internal.Views.{graph_of};

use bitsets::{BitTable, add_words, bit, first_shared, set_bit};
use std::alloc::{AllocError, Global};
use std::marker::Model;

/// Edges between the numbers below `nodes()`, which knows nothing of paths. `Graph::of_rows` makes a graph of them.
#[derive(Debug, Drop)]
pub struct EdgeRows {
    nodes: usize,
    width: usize,
    words: Vec<u64>,
}

impl Model for EdgeRows {
    ghost use Rattle.order_graph.specs.Internal.Tables.{IsTable};
    ghost use Rattle.order_graph.specs.Digraphs.{Digraph};
    ghost use Rattle.order_graph.specs.Internal.Views.{graph_of};

    ghost Value = { Digraph };

    ghost view = { λ g. graph_of g.nodes g.width g.words.items };

    ghost invariant = { λ g. IsTable g.nodes g.width g.words.items };
}

impl EdgeRows {
    /// Rows of the numbers below `nodes` without edges, or OutOfMemory where their table doesn't fit.
    pub fn new(alloc: Global, nodes: usize) -> Result<EdgeRows, AllocError>
        ensures { IfOk result (λ rows. (rows.nodes ≡ nodes) × ((x y : ℕ) → IsEdge rows x y → ⊥)) }
    {
        if nodes > u32::MAX as usize {
            return Err(AllocError);
        }
        let width = nodes.div_ceil(64);
        Ok(EdgeRows {
            nodes,
            width,
            words: vec![in alloc; 0; nodes * width]?,
        })
    }

    /// The number of nodes: each number is below it.
    #[inline]
    pub fn nodes(&self) -> usize
        ensures size { result ≡ self.now.nodes }
        ensures small { result < 2 ^ 32 }
        ensures within { EdgesWithin self.now }
    {
        let EdgeRows { nodes, .. } = self;
        *nodes
    }

    /// Adds an edge from u to each number of a row of bits: that of the number v is bit `v % 64` of word `v / 64`. The
    /// row may have any number of words; `u` and each number of the row lie below `nodes()`.
    #[inline]
    pub fn add_row(&mut self, u: usize, row: &[u64])
        requires from { u < self.old.nodes }
        requires to { (v : ℕ) → HasNumber row.now v → v < self.old.nodes }
        ensures edges { (x y : ℕ) → IsEdge self.new x y ↔ (IsEdge self.old x y ⊎ ((x ≡ u) × HasNumber row.now y)) }
        ensures nodes { self.new.nodes ≡ self.old.nodes }
    {
        add_words(&mut self.words, self.width, u, row);
    }

    /// Adds the edge from u to v.
    #[inline]
    pub fn add(&mut self, u: usize, v: usize)
        requires from { u < self.old.nodes }
        requires to { v < self.old.nodes }
        ensures edges { (x y : ℕ) → IsEdge self.new x y ↔ (IsEdge self.old x y ⊎ ((x ≡ u) × (y ≡ v))) }
        ensures nodes { self.new.nodes ≡ self.old.nodes }
    {
        set_bit(&mut self.words, self.width, u, v);
    }

    /// Whether there is an edge from u to v.
    #[inline]
    pub fn has(&self, u: usize, v: usize) -> bool
        requires from { u < self.now.nodes }
        requires to { v < self.now.nodes }
        ensures { IsTrue result ↔ IsEdge self.now u v }
    {
        let edges = BitTable {
            words: &self.words,
            width: self.width,
        };
        bit(edges, u, v)
    }

    /// Whether there is an edge from u.
    #[inline]
    pub fn has_from(&self, u: usize) -> bool
        requires { u < self.now.nodes }
        ensures { IsTrue result ↔ ((v : ℕ) × IsEdge self.now u v) }
    {
        let edges = BitTable {
            words: &self.words,
            width: self.width,
        };
        first_shared(edges, u, edges.words, u, 0, edges.width).is_some()
    }

    /// The number of nodes, how many words a row has, and the table of the rows.
    pub(crate) fn into_table(self) -> (usize, usize, Vec<u64>)
        ensures edges { IsTable result.0 result.1 result.2.items }
        ensures same { graph_of result.0 result.1 result.2.items ≡ self }
    {
        let EdgeRows {
            nodes,
            width,
            words,
        } = self;
        (nodes, width, words)
    }
}
