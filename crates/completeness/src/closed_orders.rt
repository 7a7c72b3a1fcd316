//! What a closed order says of a trace, proved of all values.

ghost use Rattle.std.specs.Prelude.{ℕ, Bool, IsTrue, List};
ghost use Rattle.tso_ops.specs.Values.{TraceValue};
ghost use Rattle.tso_ops.specs.Limits.{IsTrace};
ghost use Rattle.tso_ops.specs.Events.{IsUnwritten};
ghost use Rattle.tso_model.specs.Axioms.{IsBefore, IsMemoryOrder, IsModelOrder, IsConsistent};
ghost use Rattle.completeness.specs.ClosedOrders.{IsClosedOrder, Respects};

/// Where no load is unwritten, each memory order that respects a closed order of the trace meets all axioms of the trace's model, TSO or PSO.
/// So the trace is consistent. The closed order is given as a test of two numbers.
pub fn closed_orders_are_enough()
    ensures order { (t : TraceValue) (before : ℕ → ℕ → Bool) (order : List ℕ) → ((l : ℕ) → IsUnwritten t l → ⊥) →
        IsClosedOrder t (λ u v. IsTrue (before u v)) → IsMemoryOrder t order → Respects order (λ u v. IsTrue (before u v)) → IsModelOrder t order }
    ensures consistent { (t : TraceValue) (before : ℕ → ℕ → Bool) (order : List ℕ) → ((l : ℕ) → IsUnwritten t l → ⊥) →
        IsClosedOrder t (λ u v. IsTrue (before u v)) → IsMemoryOrder t order → Respects order (λ u v. IsTrue (before u v)) → IsConsistent t }
{}

/// Each order of a trace's model, with `init` in front, is a closed order of the trace. So a closed order has no property that such orders lack.
pub fn model_orders_are_closed()
    ensures { (t : TraceValue) (order : List ℕ) → IsTrace t → IsModelOrder t order → IsClosedOrder t (λ u v. IsBefore order u v) }
{}
