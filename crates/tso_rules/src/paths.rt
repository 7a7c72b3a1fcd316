//! The paths of a graph from any number.
ghost use Rattle.std.specs.Prelude.{◌↔◌, ◌≤◌, ◌^◌, ℕ, length};
ghost use Rattle.order_graph.specs.Digraphs.{IsEdge};
ghost use Rattle.bitsets.specs.Rows.{HasNumber};
ghost use Rattle.order_paths.specs.Paths.{Reaches};

use order_graph::Graph;

/// The numbers that `u` has a path to, as a row of bits: none begins past the graph's numbers.
#[inline]
pub(crate) fn path_row(graph: &Graph, u: usize) -> &[u64]
    ensures paths { (v : ℕ) → HasNumber result.now v ↔ Reaches (IsEdge graph.now) u v }
    ensures small { length result.now ≤ 2 ^ 26 }
{
    if u < graph.nodes() {
        graph.path_words(u)
    } else {
        &[]
    }
}
