//! The tables that a graph and a set of edges keep.

ghost use Rattle.std.specs.Prelude.{◌≡◌, ◌↔◌, ◌<◌, ◌≤◌, ◌+◌, ◌*◌, ◌/◌, IsTrue, IfOk, length};
ghost use Rattle.bitsets.specs.Tables.{IsSet};
ghost use Rattle.order_paths.specs.Paths.{Reaches, IsLeastPath};
ghost use Rattle.order_graph.specs.Internal.Tables.{Joined};
ghost use Rattle.order_graph.specs.Internal.KeptPaths.{Covers};

use crate::searches::least_path_of;
use bitsets::{BitTable, bit};
use std::alloc::AllocError;

/// The edges, the numbers that each number has a path to, and those that have a path to it: tables with a row of `width`
/// words for each number below `nodes`.
#[derive(Debug, Drop)]
pub struct KeptTables {
    pub nodes: usize,
    pub width: usize,
    pub edges: Vec<u64>,
    pub paths: Vec<u64>,
    pub transposed: Vec<u64>,
}

/// The same tables, as searches read them.
#[derive(Clone, Copy)]
pub struct Tables<'a> {
    pub nodes: usize,
    pub width: usize,
    pub edges: &'a [u64],
    pub paths: &'a [u64],
    pub transposed: &'a [u64],
}

impl KeptTables {
    /// The tables, to read.
    #[inline]
    pub fn read(&self) -> Tables<'_>
        ensures nodes { result.nodes ≡ self.now.nodes }
        ensures width { result.width ≡ self.now.width }
        ensures edges { result.edges.now ≡ self.now.edges.items }
        ensures paths { result.paths.now ≡ self.now.paths.items }
        ensures transposed { result.transposed.now ≡ self.now.transposed.items }
    {
        Tables {
            nodes: self.nodes,
            width: self.width,
            edges: &self.edges,
            paths: &self.paths,
            transposed: &self.transposed,
        }
    }

    /// The table of the edges.
    #[inline]
    pub fn edge_table(&self) -> BitTable<'_>
        ensures words { result.words.now ≡ self.now.edges.items }
        ensures width { result.width ≡ self.now.width }
    {
        BitTable {
            words: &self.edges,
            width: self.width,
        }
    }

    /// The table of the paths.
    #[inline]
    pub fn path_table(&self) -> BitTable<'_>
        ensures words { result.words.now ≡ self.now.paths.items }
        ensures width { result.width ≡ self.now.width }
    {
        BitTable {
            words: &self.paths,
            width: self.width,
        }
    }

    /// The table of the paths, transposed.
    #[inline]
    pub fn transposed_table(&self) -> BitTable<'_>
        ensures words { result.words.now ≡ self.now.transposed.items }
        ensures width { result.width ≡ self.now.width }
    {
        BitTable {
            words: &self.transposed,
            width: self.width,
        }
    }

    /// Whether there is an edge from u to v.
    #[inline]
    pub fn has_edge(&self, u: usize, v: usize) -> bool
        requires column { v / 64 < self.now.width }
        requires row { u * self.now.width + self.now.width ≤ length self.now.edges.items }
        ensures { IsTrue result ↔ IsSet self.now.edges.items self.now.width u v }
    {
        bit(self.edge_table(), u, v)
    }

    /// Whether the bit of a path from u to v is set.
    #[inline]
    pub fn has_path(&self, u: usize, v: usize) -> bool
        requires column { v / 64 < self.now.width }
        requires row { u * self.now.width + self.now.width ≤ length self.now.paths.items }
        ensures { IsTrue result ↔ IsSet self.now.paths.items self.now.width u v }
    {
        bit(self.path_table(), u, v)
    }

    /// Whether the transposed table's bit of a path from u to v is set.
    #[inline]
    pub fn has_path_back(&self, v: usize, u: usize) -> bool
        requires column { u / 64 < self.now.width }
        requires row { v * self.now.width + self.now.width ≤ length self.now.transposed.items }
        ensures { IsTrue result ↔ IsSet self.now.transposed.items self.now.width v u }
    {
        bit(self.transposed_table(), v, u)
    }

    /// The path from u to v with the fewest edges, and of these the least list.
    pub fn least_path(&self, u: usize, v: usize) -> Result<Vec<usize>, AllocError>
        requires covers { Covers self.now.nodes self.now.width self.now.edges.items self.now.paths.items self.now.transposed.items }
        requires from { u < self.now.nodes }
        requires to { v < self.now.nodes }
        requires path { Reaches (Joined self.now.edges.items self.now.width self.now.nodes) u v }
        ensures { IfOk result (λ path. IsLeastPath (Joined self.now.edges.items self.now.width self.now.nodes) u v path.items) }
    {
        least_path_of(*self.edges.allocator(), self.read(), u, v)
    }
}
