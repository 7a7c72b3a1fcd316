//! Graphs of the numbers below a bound, which know their paths.

ghost use Rattle.std.specs.Prelude.{◌≡◌, ◌⊎◌, ◌↔◌, ◌<◌, ◌+◌, ◌/◌, ◌^◌, ℕ, false, IsTrue, IfOk, MatchOption, length, slice_index_or};
ghost use Rattle.order_paths.specs.Paths.{Reaches, HasCycle, IsLeastPath, IsLeastCycle};
ghost use Rattle.order_graph.specs.Digraphs.{IsEdge, EdgesWithin, HasGrown, ReachesMore};
ghost use Rattle.bitsets.specs.Rows.{HasNumber, IsListOf};

use crate::all_paths::{join_rest, paths_in_order};
use crate::closing::closed_numbers;
use crate::cycles::better;
use crate::edge_rows::EdgeRows;
use crate::edge_sets::EdgeSet;
use crate::forward::tests_of_row;
use crate::grown::mark_grown;
use crate::joining::{Size, join};
use crate::kept_tables::KeptTables;
use crate::transposing::transposed_table;
use bitsets::{BitTable, bit, marked, set_bit};
use std::alloc::{AllocError, Global};
use std::marker::Model;

/// A graph of the numbers below `nodes()`, which knows between which of them there is a path.
///
/// It keeps a row of bits for each number, in words: its edges, the numbers that it has a path to, and those that have
/// a path to it.
#[derive(Debug, Drop)]
pub struct Graph {
    tables: KeptTables,
    grown: Vec<u64>,
}

impl Model for Graph {
    ghost use Rattle.order_graph.specs.Digraphs.{Digraph};
    ghost use Rattle.order_graph.specs.Internal.Views.{grown_graph_of};
    ghost use Rattle.order_graph.specs.Internal.KeptPaths.{KeepsAllPaths, IsNodeRow};

    ghost Value = { Digraph };

    ghost view = { λ g. grown_graph_of g.tables.nodes g.tables.width g.tables.edges.items g.grown.items };

    ghost invariant = { λ g. KeepsAllPaths g.tables.nodes g.tables.width g.tables.edges.items g.tables.paths.items g.tables.transposed.items ×
        IsNodeRow g.tables.nodes g.tables.width g.grown.items };
}

impl Graph {
    /// The graph of the numbers below `nodes` without edges, settled, or OutOfMemory where its tables don't fit.
    pub fn new(alloc: Global, nodes: usize) -> Result<Graph, AllocError>
        ensures { IfOk result (λ g. (g.nodes ≡ nodes) × ((x y : ℕ) → IsEdge g x y → ⊥) × ((x : ℕ) → HasGrown g x → ⊥)) }
    {
        if nodes > u32::MAX as usize {
            return Err(AllocError);
        }
        let width = nodes.div_ceil(64);
        let size = nodes * width;
        let tables = KeptTables {
            nodes,
            width,
            edges: vec![in alloc; 0; size]?,
            paths: vec![in alloc; 0; size]?,
            transposed: vec![in alloc; 0; size]?,
        };
        Ok(Graph {
            tables,
            grown: vec![in alloc; 0; width]?,
        })
    }

    /// The graph of the edges of these rows, settled. It is made faster than by `new` and `add` where there are many edges.
    /// OutOfMemory where an allocation was refused.
    pub fn of_rows(rows: EdgeRows) -> Result<Graph, AllocError>
        ensures same { IfOk result (λ g. g ≡ rows) }
        ensures settled { IfOk result (λ g. (x : ℕ) → HasGrown g x → ⊥) }
    {
        let (nodes, width, edges) = rows.into_table();
        let alloc = *edges.allocator();
        let table = BitTable {
            words: &edges,
            width,
        };
        let mut paths = paths_in_order(alloc, table, nodes)?;
        let made = BitTable {
            words: &paths,
            width,
        };
        let mut transposed = transposed_table(alloc, made, nodes)?;
        join_rest(table, &mut paths, &mut transposed, nodes);
        let tables = KeptTables {
            nodes,
            width,
            edges,
            paths,
            transposed,
        };
        Ok(Graph {
            tables,
            grown: vec![in alloc; 0; width]?,
        })
    }

    /// The number of nodes: each number is below it.
    #[inline]
    pub fn nodes(&self) -> usize
        ensures size { result ≡ self.now.nodes }
        ensures small { result < 2 ^ 32 }
        ensures within { EdgesWithin self.now }
    {
        self.tables.nodes
    }

    /// Adds the edge from u to v.
    #[inline]
    pub fn add(&mut self, u: usize, v: usize)
        requires from { u < self.old.nodes }
        requires to { v < self.old.nodes }
        ensures edges { (x y : ℕ) → IsEdge self.new x y ↔ (IsEdge self.old x y ⊎ ((x ≡ u) × (y ≡ v))) }
        ensures nodes { self.new.nodes ≡ self.old.nodes }
        ensures within { EdgesWithin self.new }
        ensures decided { (x y : ℕ) → Reaches (IsEdge self.new) x y ⊎ (Reaches (IsEdge self.new) x y → ⊥) }
        ensures grown { (x : ℕ) → HasGrown self.new x ↔ (HasGrown self.old x ⊎ ReachesMore (IsEdge self.old) (IsEdge self.new) x) }
    {
        let tables = &mut self.tables;
        set_bit(&mut tables.edges, tables.width, u, v);
        if tables.has_path(u, v) {
            return;
        }
        let transposed = BitTable {
            words: &tables.transposed,
            width: tables.width,
        };
        mark_grown(&mut self.grown, transposed, u, v);
        let size = Size {
            nodes: tables.nodes,
            width: tables.width,
        };
        join(&mut tables.paths, &mut tables.transposed, size, u, v);
    }

    /// Whether u has come to reach more numbers since the graph was made by `new` or `of_rows`, or last settled.
    #[inline]
    pub fn grew(&self, u: usize) -> bool
        requires { u < self.now.nodes }
        ensures { IsTrue result ↔ HasGrown self.now u }
    {
        let grown = BitTable {
            words: &self.grown,
            width: self.tables.width,
        };
        bit(grown, 0, u)
    }

    /// The numbers that have come to reach more since the graph was made or last settled, ascending. OutOfMemory where an
    /// allocation was refused. It looks at one bit for each number, in words.
    pub fn grown(&self) -> Result<Vec<usize>, AllocError>
        ensures { IfOk result (λ list. IsListOf list.items (HasGrown self.now)) }
    {
        let list = marked(*self.grown.allocator(), &self.grown, self.tables.nodes)?;
        Ok(list)
    }

    /// Settles the graph: from now on `grew` and `grown` tell of what is added after this call.
    pub fn settle(&mut self)
        ensures nodes { self.new.nodes ≡ self.old.nodes }
        ensures edges { (x y : ℕ) → IsEdge self.new x y ↔ IsEdge self.old x y }
        ensures settled { (x : ℕ) → HasGrown self.new x → ⊥ }
    {
        self.grown.fill(0);
    }

    /// Whether there is an edge from u to v.
    #[inline]
    pub fn has(&self, u: usize, v: usize) -> bool
        requires from { u < self.now.nodes }
        requires to { v < self.now.nodes }
        ensures { IsTrue result ↔ IsEdge self.now u v }
    {
        self.tables.has_edge(u, v)
    }

    /// Whether there is a path from u to v, of one or more edges.
    #[inline]
    pub fn reaches(&self, u: usize, v: usize) -> bool
        requires from { u < self.now.nodes }
        requires to { v < self.now.nodes }
        ensures path { IsTrue result ↔ Reaches (IsEdge self.now) u v }
        ensures decided { (x y : ℕ) → Reaches (IsEdge self.now) x y ⊎ (Reaches (IsEdge self.now) x y → ⊥) }
    {
        self.tables.has_path(u, v)
    }

    /// For each number whether a path of one or more edges leads from u to it. OutOfMemory where an allocation was refused.
    pub fn reached(&self, u: usize) -> Result<Vec<bool>, AllocError>
        requires { u < self.now.nodes }
        ensures sized { IfOk result (λ row. length row.items ≡ self.now.nodes) }
        ensures path { IfOk result (λ row. (y : ℕ) → IsTrue (slice_index_or row.items y false) ↔ Reaches (IsEdge self.now) u y) }
    {
        let alloc = *self.tables.edges.allocator();
        let tests = tests_of_row(alloc, self.tables.path_table(), u, self.tables.nodes)?;
        Ok(tests)
    }

    /// The numbers that u has a path to, as a row of bits: that of the number v is bit `v % 64` of word `v / 64`.
    ///
    /// No bit is set for a number from `nodes()` on.
    #[inline]
    pub fn path_words(&self, u: usize) -> &[u64]
        requires { u < self.now.nodes }
        ensures paths { (v : ℕ) → HasNumber result.now v ↔ Reaches (IsEdge self.now) u v }
        ensures size { length result.now ≡ (self.now.nodes + 63) / 64 }
    {
        let start = u * self.tables.width;
        &self.tables.paths[start..start + self.tables.width]
    }

    /// The path from u to v with the fewest edges, and of these the least list of numbers; None where there is none.
    pub fn least_path(&self, u: usize, v: usize) -> Result<Option<Vec<usize>>, AllocError>
        requires from { u < self.now.nodes }
        requires to { v < self.now.nodes }
        ensures { IfOk result (λ found. MatchOption found (Reaches (IsEdge self.now) u v → ⊥)
            (λ path. IsLeastPath (IsEdge self.now) u v path.items)) }
    {
        if !self.tables.has_path(u, v) {
            return Ok(None);
        }
        let path = self.tables.least_path(u, v)?;
        Ok(Some(path))
    }

    /// The graph's edges as a set from which edges can be removed. OutOfMemory where an allocation was refused.
    pub fn edge_set(&self) -> Result<EdgeSet, AllocError>
        ensures { IfOk result (λ set. (set.nodes ≡ self.now.nodes) × ((x y : ℕ) → IsEdge set x y ↔ IsEdge self.now x y)) }
    {
        let set = EdgeSet::of_tables(*self.tables.edges.allocator(), self.tables.read())?;
        Ok(set)
    }

    /// The cycle with the fewest numbers, and of these the least list, which begins with its least number; None where
    /// there is none.
    pub fn least_cycle(&self) -> Result<Option<Vec<usize>>, AllocError>
        ensures { IfOk result (λ found. MatchOption found (HasCycle (IsEdge self.now) → ⊥)
            (λ cycle. IsLeastCycle (IsEdge self.now) cycle.items)) }
    {
        let alloc = *self.tables.edges.allocator();
        let tables = self.tables.read();
        let closed = closed_numbers(alloc, tables)?;
        let mut best: Option<Vec<usize>> = None;
        let mut passed = vec![in alloc; 0; tables.width]?;
        for start in 0..tables.nodes {
            best = better(alloc, tables, &closed, &passed, start, best)?;
            set_bit(&mut passed, tables.width, 0, start);
        }
        Ok(best)
    }
}
