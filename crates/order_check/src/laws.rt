//! What the refusals of orders say of each other, proved of all traces and lists.
ghost use Rattle.std.specs.Prelude.{◌≡◌, ◌⊎◌, ℕ, List};
ghost use Rattle.tso_ops.specs.Values.{TraceValue};
ghost use Rattle.tso_model.specs.Axioms.{IsModelOrder};
ghost use Rattle.order_check.specs.declared.faults.OrderFault.{OrderFault};
ghost use Rattle.order_check.specs.Refusals.{IsOrderRefusal};

/// A list is an order of the trace's model or gets a refusal, never both, and it gets one refusal at most.
pub fn refusals()
    ensures some { (t : TraceValue) (order : List ℕ) → IsModelOrder t order ⊎ ((fault : OrderFault) × IsOrderRefusal t order fault) }
    ensures one { (t : TraceValue) (order : List ℕ) (fault other : OrderFault) → IsOrderRefusal t order fault → IsOrderRefusal t order other → fault ≡ other }
    ensures none { (t : TraceValue) (order : List ℕ) (fault : OrderFault) → IsModelOrder t order → IsOrderRefusal t order fault → ⊥ }
{}
