//! Whether the condition of an inferred rule is met, and its path has the rule's ends.
ghost use Rattle.std.specs.Prelude.{◌↔◌, ℕ, IsTrue, MatchOption};
ghost use Rattle.order_paths.specs.Paths.{HasEnds};
ghost use Rattle.cert_check.specs.Internal.Sides.{HasSides};

use tso_cert::InferredRule;
use tso_model::conditions::{Ends, inferred_ends};
use tso_ops::Trace;

/// Whether the rule gives the edge from `u` to `v` for load `l` by a path with the ends of this one.
pub fn has_sides(
    trace: &Trace,
    rule: InferredRule,
    l: usize,
    u: usize,
    v: usize,
    path: &[u64],
) -> bool
    ensures { IsTrue result ↔ HasSides trace.now rule l u v path.now }
{
    match (inferred_ends(trace, rule, l, u, v), ends_of(path)) {
        (Some(asked), Some(ends)) => asked == ends,
        _ => false,
    }
}

/// The first and the last of two or more numbers.
fn ends_of(path: &[u64]) -> Option<Ends>
    ensures { MatchOption result ((x y : ℕ) → HasEnds path.now x y → ⊥) (λ ends. HasEnds path.now ends.from ends.to) }
{
    match path {
        [first, _, ..] => Some(Ends {
            from: *first as usize,
            to: path[path.len() - 1] as usize,
        }),
        _ => None,
    }
}
