//! The law that no rule gives an edge from a number to itself.
ghost use Rattle.std.specs.Prelude.{ℕ};
ghost use Rattle.tso_ops.specs.Values.{TraceValue};
ghost use Rattle.tso_cert.specs.declared.rules.BaseRule.{BaseRule};
ghost use Rattle.tso_cert.specs.declared.rules.InferredRule.{InferredRule};
ghost use Rattle.tso_model.specs.Rules.{BasePair, InferredBy};

/// No rule gives an edge from a number to itself.
pub fn edges_join_different_numbers()
    ensures base { (t : TraceValue) (rule : BaseRule) (u : ℕ) → BasePair t rule u u → ⊥ }
    ensures inferred { (t : TraceValue) (rule : InferredRule) (l u x y : ℕ) → InferredBy t rule l u u x y → ⊥ }
{}
