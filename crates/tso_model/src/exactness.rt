//! The law that the derived order, the least set that the rules don't lead out of, is what the paths over the rank sets give.

ghost use Rattle.std.specs.Prelude.{◌↔◌, ℕ};
ghost use Rattle.order_paths.specs.Paths.{Reaches, HasCycle};
ghost use Rattle.tso_ops.specs.Values.{TraceValue};
ghost use Rattle.tso_model.specs.Rules.{IsDerived, HasDerivedCycle};
ghost use Rattle.tso_model.specs.Ranks.{RankSet};

/// A pair is derived exactly if some rank set has a path from its first number to its second.
pub fn exactness()
    ensures { (t : TraceValue) (u v : ℕ) → IsDerived t u v ↔ ((k : ℕ) × Reaches (RankSet t k) u v) }
{}

/// The derived order has a cycle exactly if some rank set has one.
pub fn cycle_exactness()
    ensures { (t : TraceValue) → HasDerivedCycle t ↔ ((k : ℕ) × HasCycle (RankSet t k)) }
{}
