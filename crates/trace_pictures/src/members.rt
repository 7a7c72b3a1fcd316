//! Which numbers are among others.
ghost use Rattle.std.specs.Prelude.{◌≡◌};
ghost use Rattle.trace_explanation.specs.Steps.{is_among};
ghost use Rattle.trace_pictures.specs.Edges.{are_nodes, is_beside};

use trace_explanation::is_link;

/// Whether the number is one of these.
pub(crate) fn is_among(n: usize, numbers: &[usize]) -> bool
    ensures { result ≡ is_among n numbers.now }
{
    for m in numbers {
        if *m == n {
            return true;
        }
    }
    false
}

/// Whether both numbers are among these.
pub(crate) fn are_nodes(nodes: &[usize], u: usize, v: usize) -> bool
    ensures { result ≡ are_nodes nodes.now (u, v) }
{
    is_among(u, nodes) && is_among(v, nodes)
}

/// Whether both numbers are among these, and the edge from `u` to `v` is none of these.
pub(crate) fn is_beside(nodes: &[usize], links: &[(u64, u64)], u: usize, v: usize) -> bool
    ensures { result ≡ is_beside nodes.now links.now (u, v) }
{
    are_nodes(nodes, u, v) && !is_link(links, u as u64, v as u64)
}
