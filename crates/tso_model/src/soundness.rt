//! Soundness: the edges of the rank sets, and the pairs of the derived order, hold in every order of the trace's model.
ghost use Rattle.std.specs.Prelude.{ℕ, List};
ghost use Rattle.tso_ops.specs.Values.{TraceValue};
ghost use Rattle.tso_ops.specs.Limits.{IsTrace};
ghost use Rattle.tso_ops.specs.Events.{IsUnwritten};
ghost use Rattle.order_paths.specs.Paths.{HasCycle};
ghost use Rattle.tso_model.specs.Axioms.{IsBefore, IsModelOrder, IsConsistent};
ghost use Rattle.tso_model.specs.Rules.{IsDerived, HasDerivedCycle};
ghost use Rattle.tso_model.specs.Ranks.{RankSet};

/// In every order of a trace's model, with `init` prepended, the first number of each edge of a rank set stands strictly before the second.
pub fn edges_lead_forwards()
    ensures { (t : TraceValue) (order : List ℕ) → IsTrace t → IsModelOrder t order → (k u v : ℕ) → RankSet t k u v → IsBefore order u v }
{}

/// A cycle in a rank set leaves no order of the trace's model.
pub fn cycle_leaves_no_order()
    ensures { (t : TraceValue) → IsTrace t → (k : ℕ) → HasCycle (RankSet t k) → IsConsistent t → ⊥ }
{}

/// An edge to `init` leaves no order of the trace's model.
pub fn edge_to_init_leaves_no_order()
    ensures { (t : TraceValue) → IsTrace t → (k u : ℕ) → RankSet t k u 0 → IsConsistent t → ⊥ }
{}

/// A load whose value nothing wrote leaves no order of the trace's model.
pub fn unwritten_load_leaves_no_order()
    ensures { (t : TraceValue) (l : ℕ) → IsUnwritten t l → IsConsistent t → ⊥ }
{}

/// In every order of a trace's model, with `init` prepended, the first number of each derived pair stands strictly before the second.
pub fn derived_pairs_lead_forwards()
    ensures { (t : TraceValue) (order : List ℕ) → IsTrace t → IsModelOrder t order → (u v : ℕ) → IsDerived t u v → IsBefore order u v }
{}

/// A cycle in the derived order leaves no order of the trace's model.
pub fn derived_cycle_leaves_no_order()
    ensures { (t : TraceValue) → IsTrace t → HasDerivedCycle t → IsConsistent t → ⊥ }
{}
