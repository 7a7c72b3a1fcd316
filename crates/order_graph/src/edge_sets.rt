//! Sets of edges from which edges can be removed.

ghost use Rattle.std.specs.Prelude.{◌≡◌, ◌↔◌, ◌<◌, ◌^◌, ℕ, false, IsTrue, IfOk, MatchOption, length, slice_index_or};
ghost use Rattle.order_paths.specs.Paths.{Reaches, IsLeastPath};
ghost use Rattle.order_graph.specs.Digraphs.{IsEdge, EdgesWithin};
ghost use Rattle.order_graph.specs.Internal.Views.{graph_of};
ghost use Rattle.order_graph.specs.Internal.KeptPaths.{Covers};

use crate::forward::{copied_row, reached_row, tests_of_row};
use crate::kept_tables::{KeptTables, Tables};
use bitsets::{BitTable, bit, clear_bit, set_bit};
use std::alloc::{AllocError, Global};
use std::marker::Model;

/// Edges between the numbers below `nodes()`, made from those of a graph, of which each can be removed.
///
/// Unlike a graph it keeps no paths: each question about paths is a search. Its tables of paths are those of the graph
/// that it was made from. They have the paths of all edges that are left and maybe more, so a search keeps to them.
#[derive(Debug, Drop)]
pub struct EdgeSet {
    tables: KeptTables,
}

impl Model for EdgeSet {
    ghost use Rattle.order_graph.specs.Digraphs.{Digraph};
    ghost use Rattle.order_graph.specs.Internal.Views.{graph_of};
    ghost use Rattle.order_graph.specs.Internal.KeptPaths.{Covers};

    ghost Value = { Digraph };

    ghost view = { λ g. graph_of g.tables.nodes g.tables.width g.tables.edges.items };

    ghost invariant = { λ g. Covers g.tables.nodes g.tables.width g.tables.edges.items g.tables.paths.items g.tables.transposed.items };
}

impl EdgeSet {
    /// The edges of a table, with tables that cover their paths.
    pub(crate) fn of_tables(alloc: Global, tables: Tables) -> Result<EdgeSet, AllocError>
        requires { Covers tables.nodes tables.width tables.edges.now tables.paths.now tables.transposed.now }
        ensures { IfOk result (λ set. graph_of tables.entry.nodes tables.entry.width tables.entry.edges.now ≡ set) }
    {
        let tables = KeptTables {
            nodes: tables.nodes,
            width: tables.width,
            edges: tables.edges.to_vec(alloc)?,
            paths: tables.paths.to_vec(alloc)?,
            transposed: tables.transposed.to_vec(alloc)?,
        };
        Ok(EdgeSet { tables })
    }

    /// The number of nodes: each number is below it.
    #[inline]
    pub fn nodes(&self) -> usize
        ensures size { result ≡ self.now.nodes }
        ensures small { result < 2 ^ 32 }
        ensures within { EdgesWithin self.now }
    {
        self.tables.nodes
    }

    /// Removes the edge from u to v, if it is there.
    #[inline]
    pub fn remove(&mut self, u: usize, v: usize)
        requires from { u < self.old.nodes }
        requires to { v < self.old.nodes }
        ensures edges { (x y : ℕ) → IsEdge self.new x y ↔ (IsEdge self.old x y × ((x ≡ u) × (y ≡ v) → ⊥)) }
        ensures nodes { self.new.nodes ≡ self.old.nodes }
    {
        clear_bit(&mut self.tables.edges, self.tables.width, u, v);
    }

    /// Whether there is an edge from u to v.
    #[inline]
    pub fn has(&self, u: usize, v: usize) -> bool
        requires from { u < self.now.nodes }
        requires to { v < self.now.nodes }
        ensures { IsTrue result ↔ IsEdge self.now u v }
    {
        self.tables.has_edge(u, v)
    }

    /// For each number whether a path of one or more edges leads from u to it. OutOfMemory where an allocation was refused.
    pub fn reached(&self, u: usize) -> Result<Vec<bool>, AllocError>
        requires { u < self.now.nodes }
        ensures sized { IfOk result (λ row. length row.items ≡ self.now.nodes) }
        ensures path { IfOk result (λ row. (y : ℕ) → IsTrue (slice_index_or row.items y false) ↔ Reaches (IsEdge self.now) u y) }
    {
        let alloc = *self.tables.edges.allocator();
        let width = self.tables.width;
        let mask = copied_row(alloc, self.tables.path_table(), u)?;
        let row = reached_row(alloc, self.tables.edge_table(), &mask, self.tables.nodes, u)?;
        let reached = BitTable { words: &row, width };
        let tests = tests_of_row(alloc, reached, 0, self.tables.nodes)?;
        Ok(tests)
    }

    /// Whether a path of one or more edges leads from u to v. OutOfMemory where an allocation was refused.
    ///
    /// It searches only where u has no edge to v and the graph that the set was made from had a path, and looks at no
    /// number but those from which that graph had one to v.
    pub fn reaches(&self, u: usize, v: usize) -> Result<bool, AllocError>
        requires from { u < self.now.nodes }
        requires to { v < self.now.nodes }
        ensures { IfOk result (λ leads. IsTrue leads ↔ Reaches (IsEdge self.now) u v) }
    {
        if self.tables.has_edge(u, v) {
            return Ok(true);
        }
        if !self.tables.has_path_back(v, u) {
            return Ok(false);
        }
        self.leads(u, v)
    }

    /// Whether a path of one or more edges leads from u to v, by a search over the numbers that may lead to v.
    fn leads(&self, u: usize, v: usize) -> Result<bool, AllocError>
        requires from { u < self.now.nodes }
        requires to { v < self.now.nodes }
        ensures { IfOk result (λ leads. IsTrue leads ↔ Reaches (IsEdge self.now) u v) }
    {
        let alloc = *self.tables.edges.allocator();
        let width = self.tables.width;
        let mut mask = copied_row(alloc, self.tables.transposed_table(), v)?;
        set_bit(&mut mask, width, 0, v);
        let row = reached_row(alloc, self.tables.edge_table(), &mask, self.tables.nodes, u)?;
        Ok(bit(BitTable { words: &row, width }, 0, v))
    }

    /// The path from u to v with the fewest edges, and of these the least list of numbers; None where there is none.
    /// OutOfMemory where an allocation was refused.
    pub fn least_path(&self, u: usize, v: usize) -> Result<Option<Vec<usize>>, AllocError>
        requires from { u < self.now.nodes }
        requires to { v < self.now.nodes }
        ensures { IfOk result (λ found. MatchOption found (Reaches (IsEdge self.now) u v → ⊥)
            (λ path. IsLeastPath (IsEdge self.now) u v path.items)) }
    {
        if !self.reaches(u, v)? {
            return Ok(None);
        }
        let path = self.tables.least_path(u, v)?;
        Ok(Some(path))
    }
}
