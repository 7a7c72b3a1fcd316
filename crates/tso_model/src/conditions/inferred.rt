//! The conditions of the inferred rules.
ghost use Rattle.std.specs.Prelude.{◌≡◌, ℕ, None, IfSome};
ghost use Rattle.tso_model.specs.Rules.{InferredBy};

use tso_cert::InferredRule;
use tso_ops::Trace;

/// The two ends of a path.
#[derive(Clone, Copy, Debug, PartialEq, Eq)]
pub struct Ends {
    /// The number that it leads from.
    pub from: usize,
    /// The number that it leads to.
    pub to: usize,
}

/// The ends of the path that the rule asks for to give the edge from `u` to `v` for load `l`; None where it gives none.
pub fn inferred_ends(
    trace: &Trace,
    rule: InferredRule,
    l: usize,
    u: usize,
    v: usize,
) -> Option<Ends>
    ensures is { IfSome result (λ e. InferredBy trace.now rule l u v e.from e.to) }
    ensures all { (x y : ℕ) → InferredBy trace.now rule l u v x y → IfSome result (λ e. (e.from ≡ x) × (e.to ≡ y)) }
    ensures none { result ≡ None → (x y : ℕ) → InferredBy trace.now rule l u v x y → ⊥ }
{
    match rule {
        InferredRule::LoadPast => {
            let s = trace.source_number(l)?;
            if trace.is_store(u) && trace.same_address(u, l) && s == v && u != v {
                Some(Ends { from: u, to: l })
            } else {
                None
            }
        }
        InferredRule::StorePast => {
            let s = trace.source_number(l)?;
            if u == l && trace.is_store(v) && trace.same_address(v, l) && v != s {
                Some(Ends { from: s, to: v })
            } else {
                None
            }
        }
        InferredRule::SwapBefore => {
            let s = trace.swap_store(l)?;
            if v == l && trace.is_store(u) && u != s {
                Some(Ends { from: u, to: s })
            } else {
                None
            }
        }
        InferredRule::SwapAfter => {
            let s = trace.swap_store(l)?;
            if u == s && trace.is_store(v) && v != s {
                Some(Ends { from: l, to: v })
            } else {
                None
            }
        }
    }
}
