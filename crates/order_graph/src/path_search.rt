//! What a search over edges answers, whichever type keeps them.

ghost use Rattle.std.specs.Prelude.{◌≡◌, ◌↔◌, ◌<◌, ℕ, false, IsTrue, IfOk, MatchOption, length, slice_index_or};
ghost use Rattle.order_paths.specs.Paths.{Reaches, IsLeastPath};
ghost use Rattle.order_graph.specs.Digraphs.{Digraph, IsEdge, EdgesWithin};

use crate::edge_sets::EdgeSet;
use crate::graphs::Graph;
use std::alloc::AllocError;

/// Edges between the numbers below `nodes()`, over which paths can be searched for.
pub trait PathSearch {
    ghost digraph: { Self → Digraph };

    /// The number of nodes: each number is below it.
    fn nodes(&self) -> usize
        ensures size { result ≡ (digraph self.now).nodes }
        ensures within { EdgesWithin (digraph self.now) };

    /// For each number whether a path of one or more edges leads from u to it. OutOfMemory where an allocation was refused.
    fn reached(&self, u: usize) -> Result<Vec<bool>, AllocError>
        requires { u < (digraph self.now).nodes }
        ensures sized { IfOk result (λ row. length row.items ≡ (digraph self.now).nodes) }
        ensures path { IfOk result (λ row. (y : ℕ) → IsTrue (slice_index_or row.items y false) ↔ Reaches (IsEdge (digraph self.now)) u y) };

    /// Whether a path of one or more edges leads from u to v. OutOfMemory where an allocation was refused.
    fn reaches(&self, u: usize, v: usize) -> Result<bool, AllocError>
        requires from { u < (digraph self.now).nodes }
        requires to { v < (digraph self.now).nodes }
        ensures { IfOk result (λ leads. IsTrue leads ↔ Reaches (IsEdge (digraph self.now)) u v) };

    /// The path from u to v with the fewest edges, and of these the least list of numbers; None where there is none.
    /// OutOfMemory where an allocation was refused.
    fn least_path(&self, u: usize, v: usize) -> Result<Option<Vec<usize>>, AllocError>
        requires from { u < (digraph self.now).nodes }
        requires to { v < (digraph self.now).nodes }
        ensures { IfOk result (λ found. MatchOption found (Reaches (IsEdge (digraph self.now)) u v → ⊥)
            (λ path. IsLeastPath (IsEdge (digraph self.now)) u v path.items)) };
}

impl PathSearch for Graph {
    ghost digraph = { λ g. g };

    fn nodes(&self) -> usize {
        self.nodes()
    }

    fn reached(&self, u: usize) -> Result<Vec<bool>, AllocError> {
        self.reached(u)
    }

    fn reaches(&self, u: usize, v: usize) -> Result<bool, AllocError> {
        Ok(self.reaches(u, v))
    }

    fn least_path(&self, u: usize, v: usize) -> Result<Option<Vec<usize>>, AllocError> {
        self.least_path(u, v)
    }
}

impl PathSearch for EdgeSet {
    ghost digraph = { λ g. g };

    fn nodes(&self) -> usize {
        self.nodes()
    }

    fn reached(&self, u: usize) -> Result<Vec<bool>, AllocError> {
        self.reached(u)
    }

    fn reaches(&self, u: usize, v: usize) -> Result<bool, AllocError> {
        self.reaches(u, v)
    }

    fn least_path(&self, u: usize, v: usize) -> Result<Option<Vec<usize>>, AllocError> {
        self.least_path(u, v)
    }
}
