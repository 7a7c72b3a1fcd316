//! Which traces have evidence, proved of all traces.
ghost use Rattle.std.specs.Prelude.{◌⊎◌, ◌↔◌, ℕ, Bool, IsTrue, List};
ghost use Rattle.tso_ops.specs.Values.{TraceValue};
ghost use Rattle.tso_ops.specs.Limits.{IsTrace};
ghost use Rattle.tso_model.specs.Axioms.{IsConsistent, IsMemoryOrder};
ghost use Rattle.completeness.specs.ClosedOrders.{IsClosedOrder, Respects};
ghost use Rattle.completeness.specs.EventOrders.{HasEventsAlone};
ghost use Rattle.completeness.specs.Evidence.{HasUnwrittenLoad, HasRefutation, HasRefutationByStores};

/// Each trace has an unwritten load, or an order that meets the axioms of its model, TSO or PSO, or a refutation that holds. No limit of traces is
/// needed for this.
pub fn evidence_exists()
    ensures { (t : TraceValue) → HasUnwrittenLoad t ⊎ IsConsistent t ⊎ HasRefutation t }
{}

/// Cases of two stores to one address are enough: each trace has an unwritten load, or an order that meets the axioms of its model, or a refutation
/// that holds and has no other cases. No limit of traces is needed for this.
pub fn store_cases_are_enough()
    ensures { (t : TraceValue) → HasUnwrittenLoad t ⊎ IsConsistent t ⊎ HasRefutationByStores t }
{}

/// A trace within the limits has no order of its model exactly if it has an unwritten load or a refutation that holds, and it has such an order
/// exactly if it has neither.
pub fn evidence_decides()
    ensures inconsistent { (t : TraceValue) → IsTrace t → (IsConsistent t → ⊥) ↔ (HasUnwrittenLoad t ⊎ HasRefutation t) }
    ensures consistent { (t : TraceValue) → IsTrace t → IsConsistent t ↔ (HasUnwrittenLoad t ⊎ HasRefutation t → ⊥) }
{}

/// Some memory order respects each closed order of a trace, if that has numbers of events and 0, which stands for `init`, alone. The closed
/// order is given as a test of two numbers.
pub fn closed_orders_are_respected()
    ensures { (t : TraceValue) (before : ℕ → ℕ → Bool) → IsClosedOrder t (λ u v. IsTrue (before u v)) →
        HasEventsAlone t (λ u v. IsTrue (before u v)) → (order : List ℕ) × IsMemoryOrder t order × Respects order (λ u v. IsTrue (before u v)) }
{}
